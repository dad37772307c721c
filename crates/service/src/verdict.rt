// The answer to the sheet of an input.
ghost use Rattle.service.specs.Verdicts.{Verdict};

use protocol::input::split;
use refusal::Refusal;
use sheet::count::count_records;

pub fn verdict(input: &[u8]) -> Result<(), Refusal>
    ensures { Verdict input.now result }
{
    let parts = split(input)?;
    count_records(parts.sheet)?;
    Ok(())
}
