// Whether a text is judged.
ghost use Rattle.std.specs.Prelude.{length, MatchResult};
ghost use Rattle.verdict.specs.Judged.{Fit, Unfit};

use cells::Planes;
use device::CellDevice;
use trace::{Opening, Refusal, Trace, clock_lines, heading};

// A text that is judged with these planes and this output, or the first reason against it: those of its heading, planes
// too short for its rows, a clock line that is ill-formed, an output too short for its clocks.
pub fn examine<'a>(text: &'a [u8], planes: &[u8], out: &[u8]) -> Result<Trace<'a>, Refusal>
    ensures { MatchResult result (Fit text.now (length planes.now) (length out.now)) (Unfit text.now (length planes.now) (length out.now)) }
{
    let Opening { sheet, body } = heading(text)?;
    if CellDevice::<Planes>::check(planes, &sheet).is_err() {
        return Err(Refusal::ShortMemory);
    }
    let clocks = clock_lines(body)?;
    if out.len() < 16 * clocks + 64 {
        return Err(Refusal::ShortOutput);
    }
    Ok(Trace { sheet, body })
}
