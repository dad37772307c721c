// The kinds of record, and the map byte that each begins with.
ghost use Rattle.sheet.specs.Kinds.{KindRead};

use crate::fault::Flaw;

#[derive(Clone, Copy, PartialEq, Eq, Debug)]
pub enum Kind {
    Compartment,
    Entity,
    Capability,
    Arrow,
}

impl TryFrom<u8> for Kind {
    type Error = Flaw;

    ghost try_from_gives = { KindRead };

    fn try_from(map: u8) -> Result<Kind, Flaw> {
        match map {
            1 => Ok(Kind::Compartment),
            3 => Ok(Kind::Entity),
            14 => Ok(Kind::Capability),
            17 => Ok(Kind::Arrow),
            _ => Err(Flaw::UnknownMap),
        }
    }
}
