// How a roll is set up, in the two steps of the rules: first a check, then the roll, over whatever memory.
ghost use Rattle.std.specs.Prelude.{◌≡◌, ◌≤◌, length};
ghost use Rattle.store.specs.Answers.{RefusedUnless};
ghost use Rattle.store.specs.Contents.{IsEmpty};
ghost use Rattle.roll.specs.Rolls.{contents_of, memory_of, Measures, Suits};

use crate::Roll;
use store::fault::Outside;
use store::size::is_lawful_size;
use store::triple::Triple;

const MAX_RECORDS: usize = 4096;

impl<'a> Roll<'a> {
    // Can there be a roll of this size in this memory?
    pub fn check(size: u8, records: &[Triple]) -> Result<(), Outside>
        ensures { RefusedUnless (Suits size (length records.now)) result }
    {
        if !is_lawful_size(size) || !(1..=MAX_RECORDS).contains(&records.len()) {
            return Err(Outside);
        }
        Ok(())
    }

    // An empty roll. Over memory that the check refuses it has size 0 and limit 0. In either case nothing is written yet.
    pub fn new(size: u8, records: &'a mut [Triple]) -> Roll<'a>
        ensures suits { Suits size (length records.old) → Measures result size (length records.old) }
        ensures refused { (Suits size (length records.old) → ⊥) → Measures result 0 0 }
        ensures empty { IsEmpty (contents_of result) }
        ensures unwritten { memory_of result ≡ records.old }
    {
        let limit = records.len();
        if Roll::check(size, records).is_ok() {
            Roll::unused(size, limit, records)
        } else {
            Roll::unused(0, 0, records)
        }
    }

    // A roll that uses no record.
    fn unused(size: u8, limit: usize, records: &'a mut [Triple]) -> Roll<'a>
        requires { (size ≤ 128) × (limit ≤ 4096) × (limit ≤ length records.old) }
        ensures measures { Measures result size limit }
        ensures empty { IsEmpty (contents_of result) }
        ensures unwritten { memory_of result ≡ records.old }
    {
        Roll {
            size,
            limit,
            len: 0,
            records,
        }
    }
}
