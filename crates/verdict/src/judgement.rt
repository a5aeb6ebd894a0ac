ghost use Rattle.std.specs.Prelude.{◌≡◌, ◌^◌, ◌<◌, ◌≤◌, length, IfOk, IfErr, slice_index};
ghost use Rattle.trace.specs.Answer.{answer, told};
ghost use Rattle.verdict.specs.Judged.{judged_in, written, planes_after, output_after};

use crate::examined::examine;
use crate::planes::clear;
use crate::running::run_lines;
use trace::Refusal;

// The bytes of plane memory that a row takes.
const ROW: usize = 2048;

// Judges a text. It clears the planes that the sheet's rows need and runs the clocks on them; the output gets the text of
// the verdict. Answers how many bytes were written, or the first reason against the text, and then writes nothing.
pub fn judge(text: &[u8], planes: &mut [u8], out: &mut [u8]) -> Result<usize, Refusal>
    ensures answer { told (λ n. n) result ≡ written (judged_in text.now planes.old out.old) }
    ensures planes { planes.new ≡ planes_after (judged_in text.now planes.old out.old) planes.old }
    ensures out { out.new ≡ output_after (judged_in text.now planes.old out.old) out.old }
    ensures within { IfOk result (λ n. n ≤ length out.old) }
    ensures place { IfErr result (λ e. slice_index (answer e).1 0 < 2 ^ 32) }
{
    let trace = examine(text, planes, out)?;
    clear(planes, ROW * trace.sheet.rows as usize);
    Ok(run_lines(trace.sheet, trace.clocks(), planes, out))
}
