// Which triples and entities a store could have.
ghost use Rattle.std.specs.Prelude.{◌<◌};
ghost use Rattle.store.specs.Answers.{RefusedUnless};
ghost use Rattle.store.specs.Ranges.{at, InRange};

use crate::fault::Outside;
use crate::triple::Triple;
use access::right::ALL_RIGHTS;

impl Triple {
    // Refuses a triple that no store of this size could hold.
    pub fn check(self, size: u8) -> Result<(), Outside>
        ensures { RefusedUnless (at self (InRange size)) result }
    {
        check_entity(self.holder, size)?;
        check_entity(self.target, size)?;
        if self.rights <= ALL_RIGHTS {
            Ok(())
        } else {
            Err(Outside)
        }
    }
}

// Refuses an entity that no store of this size has.
pub fn check_entity(entity: u8, size: u8) -> Result<(), Outside>
    ensures { RefusedUnless (entity < size) result }
{
    if entity < size { Ok(()) } else { Err(Outside) }
}
