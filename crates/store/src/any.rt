// What can be done with any store, by its rules alone.
ghost use Rattle.std.specs.Prelude.{◌≡◌, ◌≤◌};
ghost use Rattle.access.specs.Rules.Sets.{none, total, over, held_by};
ghost use Rattle.store.specs.Contents.{NowHolds, count_of};

use crate::Store;

// Removes all members.
pub fn clear<S: Store>(store: &mut S)
    ensures { NowHolds (S.Store.contents store.old) (S.Store.contents store.new) none }
{
    for holder in 0..S::size(store) {
        // not refused, since the holder is below the size
        let _ = store.drop_holder(holder);
    }
}

// Counts the members, each of them once.
#[tactic(auto, unfolding(access::specs::Rules::Sets::members))]
pub fn count<S: Store>(store: &S) -> u32
    ensures { result ≡ count_of (S.Store.contents store.now) }
{
    count_below(store, store.size())
}

// Counts those of the holders before `end`.
fn count_below<S: Store>(store: &S, end: u8) -> u32
    requires { end ≤ (S.Store.contents store.now).size }
    ensures { result ≡ total (held_by (S.Store.contents store.now).size (S.Store.contents store.now).holds) end }
{
    (0..end).map(|holder| count_held(store, holder)).sum()
}

fn count_held<S: Store>(store: &S, holder: u8) -> u32
    ensures { result ≡ held_by (S.Store.contents store.now).size (S.Store.contents store.now).holds holder }
{
    let targets = 0..store.size();
    targets
        .map(|target| count_over(store, holder, target))
        .sum()
}

fn count_over<S: Store>(store: &S, holder: u8, target: u8) -> u32
    ensures { result ≡ over (S.Store.contents store.now).holds holder target }
{
    store.word(holder, target).count_ones()
}
