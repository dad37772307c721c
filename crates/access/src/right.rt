// The five rights.
ghost use Rattle.std.specs.Prelude.{◌≡◌, true, ◌↔◌};
ghost use Rattle.access.specs.Rights.{value, has};
ghost use Rattle.access.specs.Words.{mask, InSome};

// A set of rights is the sum of their values, 0 to 31.
#[derive(Clone, Copy, PartialEq, Eq, Debug)]
pub enum Right {
    Read = 1,
    Write = 2,
    Grant = 4,
    Create = 8,
    Store = 16,
}

// The set of all five.
pub const ALL_RIGHTS: u8 = 31;

// The value of a right.
impl From<Right> for u8 {
    ghost from_gives = { λ right n. n ≡ value right };

    fn from(right: Right) -> u8 {
        right as u8
    }
}

impl Right {
    // Is this right in the set?
    #[tactic(auto, using(crate::proofs::RightsSets::has_by_value))]
    pub fn is_in(self, rights: u8) -> bool
        ensures { result ≡ has self rights }
    {
        rights & u8::from(self) != 0
    }

    // Has some set that stands in the word this right?
    pub fn is_in_some(self, word: u32) -> bool
        ensures { (result ≡ true) ↔ InSome self word }
    {
        word & self.mask() != 0
    }

    // Every set with this right, as a word: constants, which are plainer than what would compute them.
    fn mask(self) -> u32
        ensures { result ≡ mask self }
    {
        match self {
            Right::Read => 0xaaaa_aaaa,
            Right::Write => 0xcccc_cccc,
            Right::Grant => 0xf0f0_f0f0,
            Right::Create => 0xff00_ff00,
            Right::Store => 0xffff_0000,
        }
    }
}
