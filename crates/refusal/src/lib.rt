// Why a call is refused. This crate alone gives the refusals their numbers.
#![tactic(auto)]

ghost use Rattle.std.specs.Prelude.{◌≡◌};
ghost use Rattle.refusal.specs.Numbers.{number, number_of};

// A call that could be refused for several reasons is refused for the one that comes first here.
#[derive(Clone, Copy, PartialEq, Eq, Debug)]
pub enum Refusal {
    // the call does not belong to the table's phase
    WrongPhase = 1,
    // an entity not below the size, rights above 31, a compartment not declared
    OutOfRange = 2,
    // marks or a group buffer under 128 bytes
    ShortBuffer = 3,
    // the actor, the entity to delete, or the holder or target to place is not there
    Absent = 4,
    // the entity to place or make, or the name to declare, is already there
    Present = 5,
    // a capability that the call asks someone to be able to use, and that one may not
    Unreachable = 6,
    // a named capability lacks a right that the call needs
    MissingRight = 7,
    // no room for a new triple, or for a seventeenth compartment
    Full = 8,
    // a capability over the entity is held
    Held = 9,
    // connected entities stand in two compartments
    Connected = 10,
    // information steps where no arrow leads
    Uncharted = 11,
    // a record of a sheet or a call is broken, or a name is bad
    Broken = 12,
}

// The number of a refusal.
impl From<Refusal> for u8 {
    ghost from_gives = { λ refusal n. n ≡ number refusal };

    fn from(refusal: Refusal) -> u8 {
        refusal as u8
    }
}

// The number that is printed: 0 for what is accepted, else the refusal's.
pub fn answer_number(answer: Result<(), Refusal>) -> u8
    ensures { result ≡ number_of answer }
{
    match answer {
        Ok(()) => 0,
        Err(refusal) => u8::from(refusal),
    }
}
