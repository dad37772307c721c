// Where the words of a board lie, how they are changed, and whether all are full.
ghost use Rattle.std.specs.Prelude.{◌≡◌, ℕ, ◌+◌, ◌*◌, ◌<◌, ◌↔◌, IsTrue, MatchBool, IfOk, IfErr, length, slice_index};
ghost use Rattle.board.specs.Boards.{contents_of, memory_of, place_of, word_of, AllBits, MissingBit, Rewritten};
ghost use Rattle.store.specs.Answers.{RefusedUnless};
ghost use Rattle.store.specs.Contents.{IsFull, HasSpare};
ghost use Rattle.store.specs.Ranges.{at, AreEntities, InRange};

use crate::Board;
use std::ops::Range;
use store::fault::Outside;
use store::triple::Triple;

// Makes each of these words 0. On the row of a small board the library's `fill` takes several times as long.
pub(super) fn clear_words(words: &mut [u32])
    ensures zeros { (k : ℕ) → slice_index words.new k ≡ 0 }
    ensures len { length words.new ≡ length words.old }
{
    for word in words.iter_mut() {
        *word = 0;
    }
}

// How many words a board of this size has.
pub(super) fn count_of(size: u8) -> usize
    ensures { result ≡ size * size }
{
    usize::from(size) * usize::from(size)
}

impl Board<'_> {
    // Where the word of this holder and target lies.
    pub(super) fn place(&self, holder: u8, target: u8) -> usize
        requires { AreEntities self.now.size holder target }
        ensures place { result ≡ place_of self.now.size holder target }
        ensures within { result < self.now.size * self.now.size }
    {
        usize::from(holder) * usize::from(self.size) + usize::from(target)
    }

    // Is there a word for this holder and target? (Asked here and not in `word`, so that a wrong test is refused here.)
    pub(super) fn has_word(&self, holder: u8, target: u8) -> bool
        ensures { IsTrue result ↔ AreEntities self.now.size holder target }
    {
        holder < self.size && target < self.size
    }

    // Where the words of this holder lie.
    pub(super) fn row(&self, holder: u8) -> Range<usize>
        requires { holder < self.now.size }
        ensures start { result.start ≡ place_of self.now.size holder 0 }
        ensures end { result.end ≡ result.start + self.now.size }
    {
        let start = self.place(holder, 0);
        start..start + usize::from(self.size)
    }

    // Changes the word that has the triple's bit.
    pub(super) fn change<F: FnOnce(u32, u8) -> u32>(
        &mut self,
        triple: Triple,
        step: F,
    ) -> Result<(), Outside>
        requires { F.IsAlwaysCallable step }
        ensures range { RefusedUnless (at triple (InRange self.old.size)) result }
        ensures changes { IfOk result (λ _. Rewritten self.old self.new triple (F.post step (word_of self.old triple) triple.rights)) }
        ensures keeps { IfErr result (λ _. memory_of self.new ≡ memory_of self.old) }
        ensures size { self.new.size ≡ self.old.size }
    {
        triple.check(self.size)?;
        let place = self.place(triple.holder, triple.target);
        self.words[place] = step(self.words[place], triple.rights);
        Ok(())
    }

    // Does every bit of every word stand?
    pub(super) fn is_full(&self) -> bool
        ensures { MatchBool result (IsFull (contents_of self.now)) (HasSpare (contents_of self.now)) }
    {
        let words = &self.words[..count_of(self.size)];
        words.iter().all(|word| has_all_bits(*word))
    }
}

fn has_all_bits(word: u32) -> bool
    ensures { MatchBool result (AllBits word) (MissingBit word) }
{
    word == u32::MAX
}
