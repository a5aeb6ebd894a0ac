ghost use Rattle.std.specs.Prelude.{◌≡◌};
ghost use Rattle.trace.specs.Clock.{level, pins_of};

use crate::digits::number;
use rules::{Level, Pins};

// How many bytes a clock line has.
pub const LINE: usize = 21;

// A `TryFrom` would stand with `Level`, in a crate that knows no text.
fn level_of(byte: u8) -> Option<Level>
    ensures { result ≡ level byte }
{
    match char::from(byte) {
        'H' => Some(Level::High),
        'L' => Some(Level::Low),
        _ => None,
    }
}

// The pins that a clock line gives: 21 bytes with their tabs and their LF, levels as letters, digits in hexadecimal.
pub fn clock_line(line: &[u8]) -> Option<Pins>
    ensures { result ≡ pins_of line.now }
{
    let [
        cs,
        ras,
        cas,
        we,
        dsf,
        b'\t',
        m,
        b'\t',
        a2,
        a1,
        a0,
        b'\t',
        q7,
        q6,
        q5,
        q4,
        q3,
        q2,
        q1,
        q0,
        b'\n',
    ] = line
    else {
        return None;
    };
    let cs = level_of(*cs)?;
    let ras = level_of(*ras)?;
    let cas = level_of(*cas)?;
    let we = level_of(*we)?;
    let dsf = level_of(*dsf)?;
    let dqm = number(16, &[*m])? as u8;
    let address = number(16, &[*a2, *a1, *a0])? as u16;
    if address > 0x3FF {
        return None;
    }
    let dq = number(16, &[*q7, *q6, *q5, *q4, *q3, *q2, *q1, *q0])? as u32;
    Some(Pins {
        cs,
        ras,
        cas,
        we,
        dsf,
        dqm,
        address,
        dq,
    })
}
