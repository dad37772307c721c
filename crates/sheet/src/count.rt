// Whole sheets.
ghost use Rattle.std.specs.Prelude.{◌≡◌, ℕ, Result as Answer};
ghost use Rattle.sheet.specs.declared.fault.Fault.{Fault};
ghost use Rattle.sheet.specs.Sheets.{Counted, Unambiguous, ReadBack, OneReading};

use crate::fault::Fault;
use crate::reader::Reader;

// Reads a sheet to its end, and tells how many records it has.
pub fn count_records(sheet: &[u8]) -> Result<usize, Fault>
    ensures counts { Counted sheet.now result }
    ensures alone { (other : Answer ℕ Fault) → Counted sheet.now other → other ≡ result }
    ensures unambiguous { Unambiguous }
    ensures read_back { ReadBack }
    ensures one_reading { OneReading }
{
    let mut reader = Reader::new(sheet);
    let mut records: usize = 0;
    // no iterator: after a fault a reader answers the same again, without end, and one that stopped there would need a flag for it
    while let Some(_record) = reader.next()? {
        records += 1;
    }
    Ok(records)
}
