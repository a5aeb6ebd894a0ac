// How commands and the codes in them are written. `Display` for the types of `rules` would stand in that crate, which knows
// no text.
ghost use Rattle.std.specs.Prelude.{◌≡◌};
ghost use Rattle.listing.specs.Words.{access_text, bank_text, order_text, target_text};

use rules::{Access, BankName, Command, Mode, Register, Target};
use std::fmt;
use std::fmt::{Display, Formatter, Write};

fn access_name(access: Access) -> &'static str
    ensures { result.now ≡ access_text access }
{
    match access {
        Access::Read => "RD",
        Access::Write => "WR",
        Access::Block => "BW",
    }
}

fn bank_name(bank: BankName) -> &'static str
    ensures { result.now ≡ bank_text bank }
{
    match bank {
        BankName::A => "A",
        BankName::B => "B",
    }
}

// The banks that PRE closes.
fn target_name(target: Target) -> &'static str
    ensures { result.now ≡ target_text target }
{
    match target {
        Target::One(bank) => bank_name(bank),
        Target::Both => "both",
    }
}

// The order of columns in a burst.
fn order_name(interleaved: bool) -> &'static str
    ensures { result.now ≡ order_text interleaved }
{
    if interleaved {
        "interleaved"
    } else {
        "sequential"
    }
}

// The bare code of a register load.
#[derive(Clone, Copy)]
struct Code(u16);

impl Display for Code {
    ghost use Rattle.std.specs.Prelude.{Some};
    ghost use Rattle.listing.specs.Words.{code_text};

    ghost output = { λ c. Some (code_text c.0) };

    fn fmt<W: Write>(&self, f: &mut Formatter<W>) -> fmt::Result {
        let code = self.0 % 0x1000;
        write!(f, "code {code:03X}")
    }
}

// What LMR sets at a part of the given latency, or the code where it is not listed.
#[derive(Clone, Copy)]
struct ModeCode {
    latency: u32,
    code: u16,
}

impl Display for ModeCode {
    ghost use Rattle.std.specs.Prelude.{Some};
    ghost use Rattle.listing.specs.Words.{mode_text};

    ghost output = { λ m. Some (mode_text m.latency m.code) };

    fn fmt<W: Write>(&self, f: &mut Formatter<W>) -> fmt::Result {
        if Mode::is_listed(self.code, self.latency) {
            let mode = Mode::of_code(self.code);
            let length = mode.length.beats();
            let order = order_name(mode.interleaved);
            let latency = self.latency;
            write!(f, "length {length} {order} latency {latency}")
        } else {
            let code = Code(self.code);
            write!(f, "{code}")
        }
    }
}

// What LSMR loads, or the code where it is not listed.
#[derive(Clone, Copy)]
struct Special(u16);

impl Display for Special {
    ghost use Rattle.std.specs.Prelude.{Some};
    ghost use Rattle.listing.specs.Words.{special_text};

    ghost output = { λ s. Some (special_text s.0) };

    fn fmt<W: Write>(&self, f: &mut Formatter<W>) -> fmt::Result {
        match Register::of_code(self.0) {
            Some(Register::Mask) => f.write_str("mask"),
            Some(Register::Colour) => f.write_str("colour"),
            None if self.0 == 0 => f.write_str("none"),
            None => {
                let code = Code(self.0);
                write!(f, "{code}")
            }
        }
    }
}

// A command's mnemonic and its operands, at a part of the given latency.
#[derive(Clone, Copy)]
pub struct Listed {
    pub latency: u32,
    pub command: Command,
}

impl Display for Listed {
    ghost use Rattle.std.specs.Prelude.{Some};
    ghost use Rattle.listing.specs.Words.{command_text};

    ghost output = { λ l. Some (command_text l.latency l.command) };

    fn fmt<W: Write>(&self, f: &mut Formatter<W>) -> fmt::Result {
        match self.command {
            Command::Inhibit => f.write_str("INHBT"),
            Command::Nop => f.write_str("NOP"),
            Command::Stop => f.write_str("BST"),
            Command::Column {
                access,
                bank,
                a8,
                column,
            } => {
                let name = access_name(access);
                let bank = bank_name(bank);
                let high = if a8 { " A8" } else { "" };
                write!(f, "{name} {bank} column {column}{high}")
            }
            Command::Activate { masked, bank, row } => {
                let name = if masked { "ACTM" } else { "ACT" };
                let bank = bank_name(bank);
                write!(f, "{name} {bank} row {row}")
            }
            Command::Precharge(target) => {
                let banks = target_name(target);
                write!(f, "PRE {banks}")
            }
            Command::Refresh => f.write_str("REF"),
            Command::LoadMode { code } => {
                let mode = ModeCode {
                    latency: self.latency,
                    code,
                };
                write!(f, "LMR {mode}")
            }
            Command::LoadSpecial { code } => {
                let register = Special(code);
                write!(f, "LSMR {register}")
            }
        }
    }
}
