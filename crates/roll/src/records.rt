// The records of a roll. That no triple stands twice among those in use is kept here.
ghost use Rattle.std.specs.Prelude.{◌≡◌, ◌<◌, false, slice_index_or};
ghost use Rattle.access.specs.Rules.Sets.{added, removed, dropped};
ghost use Rattle.store.specs.Contents.{NowHolds};
ghost use Rattle.roll.specs.Lists.{Found, blank};
ghost use Rattle.store.specs.Ranges.{at, InRange};
ghost use Rattle.roll.specs.Rolls.{contents_of, used};

use crate::Roll;
use store::triple::Triple;

impl Roll<'_> {
    // The records in use.
    pub(super) fn used(&self) -> &[Triple]
        ensures { result.now ≡ used self.now }
    {
        &self.records[..self.len]
    }

    // Where the triple stands.
    pub(super) fn find(&self, triple: Triple) -> Option<usize>
        ensures { Found (used self.now) triple result }
    {
        self.used().iter().position(|record| *record == triple)
    }

    pub(super) fn has(&self, triple: Triple) -> bool
        ensures { result ≡ at triple (contents_of self.now).holds }
    {
        self.find(triple).is_some()
    }

    // Writes the triple into the first free record.
    pub(super) fn push(&mut self, triple: Triple)
        requires room { self.old.len < self.old.limit }
        requires range { at triple (InRange self.old.size) }
        requires new { at triple (contents_of self.old).holds ≡ false }
        ensures { NowHolds (contents_of self.old) (contents_of self.new) (at triple added (contents_of self.old).holds) }
    {
        self.records[self.len] = triple;
        self.len += 1;
    }

    // Frees a record. The last one in use takes its place.
    pub(super) fn free(&mut self, place: usize)
        requires { place < self.old.len }
        ensures { NowHolds (contents_of self.old) (contents_of self.new) (at (slice_index_or (used self.old) place blank) removed (contents_of self.old).holds) }
    {
        let last = self.len - 1;
        self.records[place] = self.records[last];
        self.len = last;
    }

    // Frees all records of the holder. The others move up. (A slice has no `retain`, and `push` does not tell which records it leaves for
    // the loop to look at.)
    pub(super) fn free_all(&mut self, holder: u8)
        ensures { NowHolds (contents_of self.old) (contents_of self.new) (dropped holder (contents_of self.old).holds) }
    {
        let len = self.len;
        self.len = 0;
        for place in 0..len {
            let record = self.records[place];
            if record.holder != holder {
                self.records[self.len] = record;
                self.len += 1;
            }
        }
    }
}
