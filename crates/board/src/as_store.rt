// A board is a store.
ghost use Rattle.board.specs.Boards.{contents_of};
ghost use Rattle.board.specs.Facts.{marked_lawful};

use crate::Board;
use crate::words::clear_words;
use access::word;
use store::Store;
use store::fault::{Outside, StoreFault};
use store::triple::Triple;
use store::triple::range::check_entity;

impl<'a> Store for Board<'a> {
    ghost contents = { contents_of };

    ghost lawful = { λ b. marked_lawful b.size b.words.now b.small };

    fn size(&self) -> u8 {
        self.size
    }

    fn limit(&self) -> u32 {
        u32::from(self.size) * u32::from(self.size) * 32
    }

    fn word(&self, holder: u8, target: u8) -> u32 {
        if !self.has_word(holder, target) {
            return 0;
        }
        self.words[self.place(holder, target)]
    }

    // A spare is a number by the rules, and any free bit will do.
    fn spare(&self) -> u32 {
        if self.is_full() { 0 } else { 1 }
    }

    fn put(&mut self, triple: Triple) -> Result<(), StoreFault> {
        self.change(triple, word::with)?;
        Ok(())
    }

    fn take(&mut self, triple: Triple) -> Result<(), Outside> {
        self.change(triple, word::without)
    }

    fn drop_holder(&mut self, holder: u8) -> Result<(), Outside> {
        check_entity(holder, self.size)?;
        let row = self.row(holder);
        clear_words(&mut self.words[row]);
        Ok(())
    }
}
