// The words of a store: 32 bits, one for each set of rights. By the rules a word is a number, which has no methods of ours.
ghost use Rattle.std.specs.Prelude.{◌≡◌, ℕ, ◌^◌, ◌<◌, ◌≤◌, not, ◌&&◌, ◌||◌, ◌==◌};
ghost use Rattle.access.specs.Rights.{bit};

// Does the bit of this set stand? A word has none past bit 31.
#[tactic(auto, using(crate::proofs::WordBits::bit_past_31))]
pub fn bit(word: u32, rights: u8) -> bool
    ensures { result ≡ bit word rights }
{
    rights < 32 && (word >> rights) % 2 == 1
}

// The word with the bit of this set, if there is one.
pub fn with(word: u32, rights: u8) -> u32
    ensures stands { rights < 32 → (r : ℕ) → bit result r ≡ (r == rights || bit word r) }
    ensures past { 32 ≤ rights → result ≡ word }
{
    word | only(rights)
}

// The word without the bit of this set, if there is one.
pub fn without(word: u32, rights: u8) -> u32
    ensures clear { rights < 32 → (r : ℕ) → bit result r ≡ (bit word r && not (r == rights)) }
    ensures past { 32 ≤ rights → result ≡ word }
{
    word & !only(rights)
}

// The word with the bit of this set alone, or with none if there is no such bit.
fn only(rights: u8) -> u32
    ensures below { rights < 32 → result ≡ 2 ^ rights }
    ensures past { 32 ≤ rights → result ≡ 0 }
{
    1u32.unbounded_shl(u32::from(rights))
}
