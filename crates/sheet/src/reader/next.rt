// What a reader's user calls.
ghost use Rattle.std.specs.Prelude.{◌≡◌, ◌+◌, true, ◌↔◌, is_err};
ghost use Rattle.sheet.specs.Readers.{position, rest, sheet_of};
ghost use Rattle.sheet.specs.Outcomes.{Outcome, outcome, Shows, NoRecord, Placed, width};

use crate::fault::Fault;
use crate::reader::Reader;
use crate::record::Record;

impl<'a> Reader<'a> {
    pub fn new(sheet: &'a [u8]) -> Reader<'a>
        ensures sheet { sheet_of result ≡ sheet.now }
        ensures start { position result ≡ 0 }
    {
        Reader { sheet, at: 0 }
    }

    // The next record, or `None` at the end of the sheet.
    pub fn next(&mut self) -> Result<Option<Record<'a>>, Fault>
        ensures exactly { (o : Outcome) → (outcome result ≡ o) ↔ Shows (rest self.old) o }
        ensures refuses { (is_err result ≡ true) ↔ NoRecord (rest self.old) }
        ensures places { Placed (sheet_of self.old) (position self.old) result }
        ensures moves { position self.new ≡ position self.old + width (outcome result) }
        ensures same { sheet_of self.new ≡ sheet_of self.old }
    {
        let place = self.at;
        if place == self.sheet.len() {
            return Ok(None);
        }
        // a copy reads on, so that a flaw leaves this reader where it is
        let mut ahead = *self;
        let record = ahead.record().map_err(|flaw| Fault { place, flaw })?;
        *self = ahead;
        Ok(Some(record))
    }
}
