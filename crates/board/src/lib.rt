// Boards: stores that have a word for each holder and target.
#![tactic(auto)]

ghost use Rattle.std.specs.Prelude.{◌*◌, ◌≤◌, length};

// The words lie in the caller's memory, a row for each holder and in it a word for each target. A board of size 0 has none, and may lie
// over any memory.
#[derive(Drop)]
pub struct Board<'a> {
    size: u8,
    words: &'a mut [u32],
    ghost small: { size ≤ 128 },
    ghost whole: { size * size ≤ length words.now },
}

mod as_store;
mod setup;
mod words;
