// Requests to a device of four rows, each with what it must answer.
use book::Refusal;
use sheet::Sheet;

#[derive(Clone, Copy)]
pub enum Request {
    // an address, and how many words
    Read(u32, usize),
    // the addresses as words, with a pen that reaches every bit
    Write(u32, usize),
    // with a pen that reaches no bit
    Fill(u32, u32),
    Wait(u32),
}

// A request's answer; none after a read whose buffer is not as it should be.
pub type Reply = Option<Result<u32, Refusal>>;

// What a request must answer.
#[derive(Clone, Copy)]
pub enum Due {
    // clocks, at least and at most
    Clocks(u32, u32),
    // the refusal's number, as a user reads it: a test's values stay as they are
    Refused(u8),
}

impl Due {
    pub fn is_met(self, reply: Reply) -> bool {
        match (self, reply) {
            (Due::Clocks(least, most), Some(Ok(clocks))) => least <= clocks && clocks <= most,
            (Due::Refused(number), Some(Err(refusal))) => refusal.number() == number,
            _ => false,
        }
    }
}

pub type Example = (Request, Due);

const ADDRESS: Due = Due::Refused(21);

const LENGTH: Due = Due::Refused(22);

pub const REFUSED: [Example; 14] = [
    (Request::Read(2048, 1), ADDRESS),
    (Request::Read(u32::MAX, 0), ADDRESS),
    (Request::Read(0, 0), LENGTH),
    (Request::Read(0, 257), LENGTH),
    (Request::Read(2047, 2), LENGTH),
    (Request::Read(1793, 256), LENGTH),
    (Request::Write(2048, 0), ADDRESS),
    (Request::Write(0, 257), LENGTH),
    (Request::Write(2047, 2), LENGTH),
    (Request::Fill(2048, 1), ADDRESS),
    (Request::Fill(0, 257), LENGTH),
    (Request::Fill(0, u32::MAX), LENGTH),
    (Request::Wait(0), LENGTH),
    (Request::Wait(1_000_001), LENGTH),
];

const LONG: Due = Due::Clocks(1_000_000, 1_000_200);

const ROW: Due = Due::Clocks(257, 700);

// Waits, on two of the sheets longer than ret, and then every word. Refreshes fall due and a row gets old on the way.
pub const LASTING: [Example; 11] = [
    (Request::Wait(1), Due::Clocks(1, 201)),
    (Request::Wait(1_000_000), LONG),
    (Request::Wait(1_000_000), LONG),
    (Request::Read(0, 256), ROW),
    (Request::Read(256, 256), ROW),
    (Request::Read(512, 256), ROW),
    (Request::Read(768, 256), ROW),
    (Request::Read(1024, 256), ROW),
    (Request::Read(1280, 256), ROW),
    (Request::Read(1536, 256), ROW),
    (Request::Read(1792, 256), ROW),
];

fn exactly(clocks: u32) -> Due {
    Due::Clocks(clocks, clocks)
}

// With no refresh due and every earlier distance met.
pub fn prompt(sheet: Sheet) -> [Example; 8] {
    let (cl, rcd, rp) = (sheet.cl, sheet.rcd, sheet.rp);
    [
        (Request::Wait(100), exactly(100)),
        // an idle bank
        (Request::Read(1, 64), exactly(rcd + 64 + cl)),
        // the open row
        (Request::Read(192, 64), exactly(64 + cl)),
        // another row
        (Request::Read(256, 64), exactly(rp + rcd + 64 + cl)),
        // the open row, and over its end another
        (
            Request::Read(480, 64),
            exactly(32 + cl + rp + rcd + 32 + cl),
        ),
        // another row, and over the banks' boundary an idle bank
        (
            Request::Read(992, 64),
            exactly(rp + rcd + 32 + cl + rcd + 32 + cl),
        ),
        // other rows: all of one, and the last word
        (Request::Read(0, 256), exactly(rp + rcd + 256 + cl)),
        (Request::Read(2047, 1), exactly(rp + rcd + 1 + cl)),
    ]
}

// Words written and filled, with no refresh due.
pub fn drawn(sheet: Sheet) -> [Example; 9] {
    let (cl, rcd, rp) = (sheet.cl, sheet.rcd, sheet.rp);
    let (wr, bwc) = (sheet.wr, sheet.bwc);
    [
        (Request::Wait(100), exactly(100)),
        // an idle bank, after the mask was loaded
        (Request::Write(1, 64), exactly(2 + rcd + 64)),
        // the open row
        (Request::Write(192, 64), exactly(64)),
        (Request::Read(192, 64), exactly(64 + cl)),
        // the bus is left a clock free behind a read
        (Request::Write(192, 32), exactly(1 + 32)),
        // eight blocks, after mask and colour were loaded
        (Request::Fill(8, 64), exactly(2 + 2 + 7 * bwc + 1)),
        // the same, bwc after the last block
        (Request::Fill(8, 64), exactly(8 * bwc)),
        // bwc, the mask, six words, wr, another row, and six more
        (
            Request::Write(250, 12),
            exactly(bwc - 1 + 2 + 6 + wr + rp + rcd + 5),
        ),
        (Request::Read(0, 256), ROW),
    ]
}
