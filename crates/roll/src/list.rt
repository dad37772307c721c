// The words of a list of triples.
ghost use Rattle.std.specs.Prelude.{◌≡◌, ℕ, ◌<◌, ◌&&◌, ◌==◌, All};
ghost use Rattle.access.specs.Rights.{bit};
ghost use Rattle.roll.specs.Lists.{listed};

use access::word;
use store::triple::Triple;

// A bit for each set of rights that the holder has over the target, two numbers as `word` is asked for them.
pub(super) fn word_of(list: &[Triple], holder: u8, target: u8) -> u32
    requires { All (λ member. member.rights < 32) list.now }
    ensures { (r : ℕ) → bit result r ≡ listed list.now holder target r }
{
    list.iter()
        .filter(|member| is_of(member, holder, target))
        .fold(0, |word, member| word::with(word, member.rights))
}

fn is_of(member: &Triple, holder: u8, target: u8) -> bool
    ensures { result ≡ (holder == member.now.holder && target == member.now.target) }
{
    member.holder == holder && member.target == target
}
