// What a sheet is made of.

// A name as it stands in a sheet: its bytes are that part of the sheet, and `place` is the index of the first of them. Whether two names are
// one is asked of their bytes; `==` asks for their places too.
#[derive(Clone, Copy, PartialEq, Eq, Debug)]
pub struct Name<'a> {
    pub place: usize,
    pub bytes: &'a [u8],
}

// One record of a sheet. `place` is the index of its first byte.
#[derive(Clone, Copy, PartialEq, Eq, Debug)]
pub struct Record<'a> {
    pub place: usize,
    pub content: Content<'a>,
}

// What a record says.
#[derive(Clone, Copy, PartialEq, Eq, Debug)]
pub enum Content<'a> {
    // declares a compartment
    Compartment { name: Name<'a> },
    // places an entity in a compartment
    Entity { compartment: Name<'a>, entity: u8 },
    // places a capability with its holder
    Capability { holder: u8, target: u8, rights: u8 },
    // draws an arrow from one compartment to another
    Arrow { from: Name<'a>, to: Name<'a> },
}
