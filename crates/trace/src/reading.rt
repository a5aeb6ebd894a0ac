ghost use Rattle.std.specs.Prelude.{◌≡◌, Err, MatchResult};
ghost use Rattle.trace.specs.Answer.{answer, told};
ghost use Rattle.trace.specs.Text.{lines_of, trace_of, traced, Well};

use crate::body::clock_lines;
use crate::opening::heading;
use crate::refusal::Refusal;
use crate::text::{Opening, Trace};

// Reads a text, or says the first reason against it: those of its heading, then a clock line that is ill-formed.
#[tactic(auto, using(crate::proofs::Whole::lines_ok))]
pub fn lines(text: &[u8]) -> Result<Trace<'_>, Refusal>
    ensures value { told (traced text.now) result ≡ lines_of text.now }
    ensures well { MatchResult result (Well text.now) (λ e. trace_of text.now ≡ Err (answer e)) }
{
    let Opening { sheet, body } = heading(text)?;
    clock_lines(body)?;
    Ok(Trace { sheet, body })
}
