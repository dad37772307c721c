// The sizes of stores.
ghost use Rattle.std.specs.Prelude.{◌↔◌, IsTrue};
ghost use Rattle.store.specs.Ranges.{LawfulSize};

const MAX_SIZE: u8 = 128;

// Can a store be set up with this size? (The program judges the size of its input by itself, and knows no stores.)
pub fn is_lawful_size(size: u8) -> bool
    ensures { IsTrue result ↔ LawfulSize size }
{
    (1..=MAX_SIZE).contains(&size)
}
