ghost use Rattle.std.specs.Prelude.{◌≡◌, ◌≤◌, length, Ok};
ghost use Rattle.trace.specs.Body.{clocks, clocks_of};

use crate::clocks::Clocks;
use sheet::Sheet;

// A text's sheet, and the text behind its line, which is no longer than a trace may be.
#[derive(Clone, Copy)]
pub struct Opening<'a> {
    pub sheet: Sheet,
    pub body: &'a [u8],
    ghost short: { length body.now ≤ 65536 },
}

// A well-formed text: its sheet, and the lines of its clocks behind it.
#[derive(Clone, Copy)]
pub struct Trace<'a> {
    pub sheet: Sheet,
    pub body: &'a [u8],
    ghost short: { length body.now ≤ 65536 },
    ghost read: { clocks_of body.now ≡ Ok (clocks body.now) },
}

impl<'a> Trace<'a> {
    // The clocks, in their order.
    pub fn clocks(&self) -> Clocks<'a>
        ensures value { result ≡ clocks self.now.body.now }
        ensures few { length result ≤ 3120 }
    {
        Clocks { rest: self.body }
    }
}
