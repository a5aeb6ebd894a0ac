ghost use Rattle.std.specs.Prelude.{◌≡◌, length};
ghost use Rattle.trace.specs.Answer.{told};
ghost use Rattle.trace.specs.Body.{clocks_of};

use crate::body::clock_lines;
use crate::clock::{LINE, clock_line};
use crate::refusal::Refusal;
use rules::Pins;
use std::marker::Model;

// The clocks that are still to come of a body whose lines are all well-formed.
#[derive(Drop)]
pub struct Clocks<'a> {
    pub(crate) rest: &'a [u8],
}

impl<'a> Model for Clocks<'a> {
    ghost use Rattle.std.specs.Prelude.{◌≡◌, List, Ok};
    ghost use Rattle.rules.specs.declared.pins.Pins.{Pins};
    ghost use Rattle.trace.specs.Body.{clocks, clocks_of};

    ghost Value = { List Pins };

    ghost view = { λ c. clocks c.rest.now };

    ghost invariant = { λ c. clocks_of c.rest.now ≡ Ok (clocks c.rest.now) };
}

impl<'a> Clocks<'a> {
    // The clocks of the text behind the sheet line, or its first line that is ill-formed.
    pub fn read(body: &'a [u8]) -> Result<Clocks<'a>, Refusal>
        ensures { told (λ ps. ps) result ≡ clocks_of body.now }
    {
        clock_lines(body)?;
        Ok(Clocks { rest: body })
    }

    // How many are still to come.
    pub fn len(&self) -> usize
        ensures { result ≡ length self.now }
    {
        self.rest.len() / LINE
    }
}

impl<'a> Iterator for Clocks<'a> {
    ghost use Rattle.std.specs.Iterator.{YieldsFirst, item_count};

    type Item = Pins;

    ghost next_gives = { YieldsFirst (λ c. c) };

    ghost remaining = { item_count (λ c. c) };

    #[tactic(auto, using(crate::proofs::Left::clock_none))]
    fn next(&mut self) -> Option<Pins> {
        let (line, rest) = self.rest.split_at_checked(LINE)?;
        self.rest = rest;
        clock_line(line)
    }
}
