ghost use Rattle.std.specs.Prelude.{◌≡◌, List, length, IfOk, Ok};
ghost use Rattle.std.specs.List.{slice_get};
ghost use Rattle.rules.specs.declared.pins.Pins.{Pins as Clock};
ghost use Rattle.trace.specs.Answer.{told, on};
ghost use Rattle.trace.specs.Clock.{pins_of};
ghost use Rattle.trace.specs.Body.{piece, clocks, clocks_of};

use crate::clock::{LINE, clock_line};
use crate::refusal::Refusal;
use rules::Pins;

// How many clock lines the text behind the sheet line has, or the first that is ill-formed.
pub fn clock_lines(body: &[u8]) -> Result<usize, Refusal>
    ensures value { told (λ n. n) result ≡ on length (clocks_of body.now) }
    ensures listed { IfOk result (λ n. (clocks_of body.now ≡ Ok (clocks body.now)) × (length (clocks body.now) ≡ n)) }
{
    let ill_formed = body
        .chunks(LINE)
        .position(|line| clock_line(line).is_none());
    match ill_formed {
        Some(clock) => Err(Refusal::IllFormedLine(clock + 2)),
        None => Ok(body.len() / LINE),
    }
}

// The pins at a clock, counted from 0, of the text behind the sheet line. If all its lines are well-formed, these are
// its clocks in their order, and none past the last.
pub fn pins_at(body: &[u8], clock: usize) -> Option<Pins>
    ensures value { result ≡ pins_of (piece body.now clock) }
    ensures listed { (ps : List Clock) → clocks_of body.now ≡ Ok ps → result ≡ slice_get ps clock }
{
    if clock >= body.len() / LINE {
        return None;
    }
    clock_line(&body[LINE * clock..LINE * clock + LINE])
}
