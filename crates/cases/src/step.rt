// One step of a test, for every kind of store.
ghost use Rattle.cases.specs.Steps.{Asked};

use store::Store;
use store::fault::StoreFault;
use store::triple::Triple;

// Steps are data, so that one table serves every kind of store.
#[derive(Clone, Copy)]
pub enum Step {
    Put(u8, u8, u8),
    Take(u8, u8, u8),
    Drop(u8),
}

impl Step {
    pub fn ask<S: Store>(self, store: &mut S) -> Result<(), StoreFault>
        ensures { Asked self result (S.Store.contents store.old) (S.Store.contents store.new) }
    {
        match self {
            Step::Put(holder, target, rights) => store.put(Triple {
                holder,
                target,
                rights,
            })?,
            Step::Take(holder, target, rights) => store.take(Triple {
                holder,
                target,
                rights,
            })?,
            Step::Drop(holder) => store.drop_holder(holder)?,
        }
        Ok(())
    }
}
