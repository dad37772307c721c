// Why a store refuses.
ghost use Rattle.std.specs.Prelude.{◌≡◌};
ghost use Rattle.store.specs.declared.fault.StoreFault.TheVariants as faults;
ghost use Rattle.store.specs.Refusals.{refusal};

use refusal::Refusal;

// An entity is not below the size, or rights are above 31; of memory: it is not such as the store wants. The one reason of a call that has
// no other.
#[derive(Clone, Copy, PartialEq, Eq, Debug)]
pub struct Outside;

// The reasons of a call that makes a triple a member.
#[derive(Clone, Copy, PartialEq, Eq, Debug)]
pub enum StoreFault {
    // as `Outside`
    OutOfRange,
    // the triple is new, and there are as many as the limit
    Full,
}

impl From<Outside> for StoreFault {
    ghost from_gives = { λ _ fault. fault ≡ faults.OutOfRange };

    fn from(_fault: Outside) -> StoreFault {
        StoreFault::OutOfRange
    }
}

impl From<Outside> for Refusal {
    ghost from_gives = { λ _ r. r ≡ refusal faults.OutOfRange };

    fn from(_fault: Outside) -> Refusal {
        Refusal::OutOfRange
    }
}

impl From<StoreFault> for Refusal {
    ghost from_gives = { λ fault r. r ≡ refusal fault };

    fn from(fault: StoreFault) -> Refusal {
        match fault {
            StoreFault::OutOfRange => Refusal::OutOfRange,
            StoreFault::Full => Refusal::Full,
        }
    }
}
