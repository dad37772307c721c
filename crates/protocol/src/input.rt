// The program's input: a size byte, a limit and the sheet's length, each of two bytes with the high one first, then the
// sheet, and after it the calls.
ghost use Rattle.std.specs.Prelude.{◌≡◌, ◌↔◌, IsTrue, MatchOption};
ghost use Rattle.protocol.specs.Inputs.{Cut, InRange, HasPartsOf, Split, ReadsBack, Enough, readable, cut_calls};

use refusal::Refusal;

const HEADER: usize = 5;

const MAX_SIZE: u8 = 128;

const MAX_LIMIT: u16 = 4096;

const MAX_SHEET: usize = 65_535;

// What follows these bytes of calls is not read.
const MAX_CALLS: usize = 60_000;

// The parts of an input, borrowed from it.
#[derive(Clone, Copy, PartialEq, Eq, Debug)]
pub struct Input<'a> {
    pub size: u8,
    pub limit: u16,
    pub sheet: &'a [u8],
    pub calls: &'a [u8],
}

// How many bytes of an input can count.
pub fn max_input() -> usize
    ensures { result ≡ readable }
{
    HEADER + MAX_SHEET + MAX_CALLS
}

// Takes an input apart. That it ends too early is told before its numbers are judged.
pub fn split(bytes: &[u8]) -> Result<Input<'_>, Refusal>
    ensures parts { Split bytes.now result }
    ensures reads_back { ReadsBack bytes.now result }
    ensures enough { Enough readable }
{
    let input = parts(bytes).ok_or(Refusal::Broken)?;
    if in_range(input.size, input.limit) {
        Ok(input)
    } else {
        Err(Refusal::OutOfRange)
    }
}

// The parts of an input, or `None` where it ends before its sheet does.
fn parts(bytes: &[u8]) -> Option<Input<'_>>
    ensures { MatchOption result (Cut bytes.now) (λ i. (Cut bytes.now → ⊥) × HasPartsOf bytes.now i) }
{
    let (header, body) = bytes.split_first_chunk::<HEADER>()?;
    let [size, limit_high, limit_low, len_high, len_low] = *header;
    let len = u16::from_be_bytes([len_high, len_low]);
    let (sheet, rest) = body.split_at_checked(usize::from(len))?;
    Some(Input {
        size,
        limit: u16::from_be_bytes([limit_high, limit_low]),
        sheet,
        calls: cut_calls(rest),
    })
}

fn in_range(size: u8, limit: u16) -> bool
    ensures { IsTrue result ↔ InRange size limit }
{
    (1..=MAX_SIZE).contains(&size) && (1..=MAX_LIMIT).contains(&limit)
}

// The bytes of the calls that count.
fn cut_calls(rest: &[u8]) -> &[u8]
    ensures { result.now ≡ cut_calls rest.now }
{
    &rest[..MAX_CALLS.min(rest.len())]
}
