// The lines of the output. Widenings by `as`: with `From` (tried) each proof of a line has to name the conversion.
ghost use Rattle.std.specs.Prelude.{◌≡◌, ◌+◌, ◌<◌, ◌≤◌, length, IfSome};
ghost use Rattle.rules.specs.Rule.{number_of};
ghost use Rattle.verdict.specs.Wrote.{HasRoom, Writes};
ghost use Rattle.verdict.specs.Page.{clock_line, clock_text, kind, active_text, letter, bank_line, ok_line, fault_line, verdict_line, end_text};

use crate::writing::Page;
use rules::{BankName, Fault, OpenRow};

// How a row was opened.
fn kind_name(masked: bool) -> &'static [u8]
    ensures value { result.now ≡ kind masked }
    ensures short { length result.now ≤ 6 }
{
    if masked { b"masked" } else { b"plain" }
}

fn letter(bank: BankName) -> u8
    ensures { result ≡ letter bank }
{
    match bank {
        BankName::A => b'A',
        BankName::B => b'B',
    }
}

impl<'a> Page<'a> {
    fn clock_line(&mut self, clock: u64, lanes: u8, word: u32)
        requires small { clock < 10000 }
        requires room { HasRoom self.old 16 }
        ensures writes { Writes self.old (clock_line clock (lanes, word)) self.new }
        ensures bound { self.new.end ≤ self.old.end + 16 }
    {
        self.decimal(clock);
        self.byte(b'\t');
        self.hex(1, lanes as u32);
        self.byte(b'\t');
        self.hex(8, word);
        self.byte(b'\n');
    }

    // What a clock answered; nothing where no lane is driven.
    pub fn clock(&mut self, clock: u64, lanes: u8, word: u32)
        requires small { clock < 10000 }
        requires room { HasRoom self.old 16 }
        ensures writes { Writes self.old (clock_text clock (lanes, word)) self.new }
        ensures bound { self.new.end ≤ self.old.end + 16 }
    {
        if lanes != 0 {
            self.clock_line(clock, lanes, word);
        }
    }

    fn row(&mut self, row: u16, masked: bool)
        requires { HasRoom self.old 21 }
        ensures writes { Writes self.old (active_text row masked) self.new }
        ensures bound { self.new.end ≤ self.old.end + 21 }
    {
        self.bytes(b"\tactive\t");
        self.decimal(row as u64);
        self.byte(b'\t');
        self.bytes(kind_name(masked));
        self.byte(b'\n');
    }

    fn bank(&mut self, bank: BankName, row: Option<OpenRow>)
        requires { HasRoom self.old 22 }
        ensures writes { Writes self.old (bank_line (letter bank) row) self.new }
        ensures bound { self.new.end ≤ self.old.end + 22 }
    {
        self.byte(letter(bank));
        match row {
            None => self.bytes(b"\tidle\n"),
            Some(OpenRow { row, masked }) => self.row(row, masked),
        }
    }

    fn ok(&mut self, clocks: u64)
        requires small { clocks < 10000 }
        requires room { HasRoom self.old 8 }
        ensures { Writes self.old (ok_line clocks) self.new }
    {
        self.bytes(b"ok\t");
        self.decimal(clocks);
        self.byte(b'\n');
    }

    fn fault(&mut self, fault: Fault)
        requires early { fault.clock < 10000 }
        requires room { HasRoom self.old 14 }
        ensures { Writes self.old (fault_line (number_of fault.rule) fault.clock) self.new }
    {
        let number = fault.rule.number();
        self.bytes(b"fault\t");
        self.decimal(number as u64);
        self.byte(b'\t');
        self.decimal(fault.clock);
        self.byte(b'\n');
    }

    // The verdict on so many clocks.
    fn verdict(&mut self, clocks: u64, fault: Option<Fault>)
        requires small { clocks < 10000 }
        requires early { IfSome fault (λ f. f.clock < 10000) }
        requires room { HasRoom self.old 14 }
        ensures { Writes self.old (verdict_line clocks fault) self.new }
    {
        match fault {
            None => self.ok(clocks),
            Some(fault) => self.fault(fault),
        }
    }

    // The rows of banks A and B, and the verdict.
    pub fn state(
        &mut self,
        a: Option<OpenRow>,
        b: Option<OpenRow>,
        clocks: u64,
        fault: Option<Fault>,
    )
        requires small { clocks < 10000 }
        requires early { IfSome fault (λ f. f.clock < 10000) }
        requires room { HasRoom self.old 64 }
        ensures { Writes self.old (end_text a b clocks fault) self.new }
    {
        self.bank(BankName::A, a);
        self.bank(BankName::B, b);
        self.verdict(clocks, fault);
    }
}
