// How a board is set up, in the two steps of the rules: first a check, then the board, over whatever memory.
ghost use Rattle.std.specs.Prelude.{◌≡◌, length};
ghost use Rattle.store.specs.Answers.{RefusedUnless};
ghost use Rattle.store.specs.Contents.{IsEmpty};
ghost use Rattle.board.specs.Boards.{contents_of, memory_of, Suits};

use crate::Board;
use crate::words::count_of;
use store::fault::Outside;
use store::size::is_lawful_size;

impl<'a> Board<'a> {
    // Can there be a board of this size in this memory?
    pub fn check(size: u8, words: &[u32]) -> Result<(), Outside>
        ensures { RefusedUnless (Suits size (length words.now)) result }
    {
        if !is_lawful_size(size) || words.len() != count_of(size) {
            return Err(Outside);
        }
        Ok(())
    }

    // An empty board. Over memory that the check refuses it has size 0 and writes nothing.
    pub fn new(size: u8, words: &'a mut [u32]) -> Board<'a>
        ensures suits { Suits size (length words.old) → (contents_of result).size ≡ size }
        ensures refused { (Suits size (length words.old) → ⊥) → ((contents_of result).size ≡ 0) × (memory_of result ≡ words.old) }
        ensures empty { IsEmpty (contents_of result) }
    {
        if Board::check(size, words).is_err() {
            return Board { size: 0, words };
        }
        words.fill(0);
        Board { size, words }
    }
}
