// A roll is a store.
ghost use Rattle.roll.specs.Facts.{listed_lawful};
ghost use Rattle.roll.specs.Rolls.{contents_of};

use crate::{Roll, list};
use store::Store;
use store::fault::{Outside, StoreFault};
use store::triple::Triple;
use store::triple::range::check_entity;

impl<'a> Store for Roll<'a> {
    ghost contents = { contents_of };

    ghost lawful = { λ s. listed_lawful s.size s.len s.limit s.records.now s.small s.short s.within s.apart };

    fn size(&self) -> u8 {
        self.size
    }

    fn limit(&self) -> u32 {
        self.limit as u32 // at most 4,096; `From` does not know that
    }

    fn word(&self, holder: u8, target: u8) -> u32 {
        list::word_of(self.used(), holder, target)
    }

    fn spare(&self) -> u32 {
        (self.limit - self.len) as u32 // likewise
    }

    fn put(&mut self, triple: Triple) -> Result<(), StoreFault> {
        triple.check(self.size)?;
        if self.has(triple) {
            return Ok(());
        }
        if self.len == self.limit {
            return Err(StoreFault::Full);
        }
        self.push(triple);
        Ok(())
    }

    fn take(&mut self, triple: Triple) -> Result<(), Outside> {
        triple.check(self.size)?;
        if let Some(place) = self.find(triple) {
            self.free(place);
        }
        Ok(())
    }

    fn drop_holder(&mut self, holder: u8) -> Result<(), Outside> {
        check_entity(holder, self.size)?;
        self.free_all(holder);
        Ok(())
    }
}
