// What a store holds.

// Entity `holder` holds the capability over `target` with these rights.
#[derive(Clone, Copy, PartialEq, Eq, Debug)]
pub struct Triple {
    pub holder: u8,
    pub target: u8,
    pub rights: u8,
}

pub mod range;
