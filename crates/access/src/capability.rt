// What an entity may hold.

// The rights that its holder has over the target.
#[derive(Clone, Copy, PartialEq, Eq, Debug)]
pub struct Capability {
    pub target: u8,
    pub rights: u8,
}
