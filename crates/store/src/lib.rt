// Stores: where a table keeps its triples. One meaning, and several ways to keep to it.
#![tactic(auto)]

ghost use Rattle.std.specs.Prelude.{◌≡◌, ℕ, ◌+◌, ◌<◌, ◌≤◌, ◌↔◌};
ghost use Rattle.access.specs.Rights.{bit};
ghost use Rattle.access.specs.Rules.Sets.{added, removed, dropped};
ghost use Rattle.store.specs.Ranges.{at, AreEntities, InRange};
ghost use Rattle.store.specs.Answers.{OutOfRangeUnless, FullUnless, RefusedUnless, Becomes};
ghost use Rattle.store.specs.Contents.{Contents, IsFull, Lawful, RoomFor, count_of};

use crate::fault::{Outside, StoreFault};
use crate::triple::Triple;

pub mod any;
pub mod fault;
mod laws;
pub mod lent;
pub mod size;
pub mod triple;

// A set of triples, its members, with a size and a limit that never change.
pub trait Store {
    ghost contents: { Self → Contents };

    fn size(&self) -> u8
        ensures { result ≡ (contents self.now).size };

    fn limit(&self) -> u32
        ensures { result ≡ (contents self.now).limit };

    // A bit for each set of rights, which stands if the holder has a capability over the target with just these rights. The two come
    // as they are asked for, as bare numbers.
    fn word(&self, holder: u8, target: u8) -> u32
        ensures bits { (r : ℕ) → bit result r ≡ (contents self.now).holds holder target r }
        ensures outside { (AreEntities (contents self.now).size holder target → ⊥) → result ≡ 0 };

    // 0 if the store is full; otherwise some number that there is room for.
    fn spare(&self) -> u32
        ensures full { (result ≡ 0) ↔ IsFull (contents self.now) }
        ensures room { result + count_of (contents self.now) ≤ (contents self.now).limit };

    // Makes the triple a member. A full store refuses one that is new.
    fn put(&mut self, triple: Triple) -> Result<(), StoreFault>
        ensures range { OutOfRangeUnless (at triple (InRange (contents self.old).size)) result }
        ensures room { FullUnless (at triple (RoomFor (contents self.old))) result }
        ensures adds { Becomes result (at triple added) (contents self.old) (contents self.new) };

    // Makes the triple no member, whether it was one or not.
    fn take(&mut self, triple: Triple) -> Result<(), Outside>
        ensures range { RefusedUnless (at triple (InRange (contents self.old).size)) result }
        ensures removes { Becomes result (at triple removed) (contents self.old) (contents self.new) };

    // Leaves no member with this holder.
    fn drop_holder(&mut self, holder: u8) -> Result<(), Outside>
        ensures range { RefusedUnless (holder < (contents self.old).size) result }
        ensures drops { Becomes result (dropped holder) (contents self.old) (contents self.new) };

    // What is true of every store.
    ghost lawful: { (s : Self) → Lawful (contents s) };
}
