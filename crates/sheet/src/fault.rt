// What is wrong with a sheet.
ghost use Rattle.std.specs.Prelude.{◌≡◌};
ghost use Rattle.sheet.specs.Refusals.{refusal};

use refusal::Refusal;

// Why no record can be read: the first byte that no record could have in its place, or the want of one.
#[derive(Clone, Copy, PartialEq, Eq, Debug)]
pub enum Flaw {
    // the first byte is the map of no kind of record
    UnknownMap,
    // the sheet ends within the record
    Cut,
    // a name's length is not 1 to 32
    BadLength,
    // a name has a byte that is no letter, digit, hyphen, underscore or dot
    BadCharacter,
}

// A flaw, and the index of the first byte of the record that has it.
#[derive(Clone, Copy, PartialEq, Eq, Debug)]
pub struct Fault {
    pub place: usize,
    pub flaw: Flaw,
}

impl From<Fault> for Refusal {
    ghost from_gives = { λ fault r. r ≡ refusal fault.flaw };

    fn from(fault: Fault) -> Refusal {
        match fault.flaw {
            Flaw::UnknownMap | Flaw::Cut | Flaw::BadLength | Flaw::BadCharacter => Refusal::Broken,
        }
    }
}
