// A store that is lent is a store: a table can hold one whose owner and memory are elsewhere.
use crate::Store;
use crate::fault::{Outside, StoreFault};
use crate::triple::Triple;

impl<'a, S: Store> Store for &'a mut S {
    ghost contents = { λ s. S.Store.contents s.now };

    ghost lawful = { λ s. S.Store.lawful s.now };

    fn size(&self) -> u8 {
        (**self).size()
    }

    fn limit(&self) -> u32 {
        (**self).limit()
    }

    fn word(&self, holder: u8, target: u8) -> u32 {
        (**self).word(holder, target)
    }

    fn spare(&self) -> u32 {
        (**self).spare()
    }

    fn put(&mut self, triple: Triple) -> Result<(), StoreFault> {
        (**self).put(triple)
    }

    fn take(&mut self, triple: Triple) -> Result<(), Outside> {
        (**self).take(triple)
    }

    fn drop_holder(&mut self, holder: u8) -> Result<(), Outside> {
        (**self).drop_holder(holder)
    }
}
