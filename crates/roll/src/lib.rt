// Rolls: stores that list their members.
#![tactic(auto)]

ghost use Rattle.std.specs.Prelude.{◌≤◌, length, take};
ghost use Rattle.roll.specs.Lists.{Apart};

use store::triple::Triple;

// The records are triples in the caller's memory, which no `Vec` can be made of. Those in use are the first `len`, so that a roll goes
// through its members alone, and knows how many it can still take. A roll of limit 0 uses none, and may lie over any memory.
#[derive(Drop)]
pub struct Roll<'a> {
    size: u8,
    limit: usize,
    len: usize,
    records: &'a mut [Triple],
    ghost small: { size ≤ 128 },
    ghost short: { limit ≤ 4096 },
    ghost whole: { limit ≤ length records.now },
    ghost within: { len ≤ limit },
    ghost apart: { Apart size (take len records.now) },
}

mod as_store;
mod laws;
mod list;
mod records;
mod setup;
