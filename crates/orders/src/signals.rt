ghost use Rattle.std.specs.Prelude.{◌≡◌, ◌+◌, ◌<◌};
ghost use Rattle.orders.specs.Signals.{pins_of, column_pins, at_8, at_target, Encodes};
ghost use Rattle.rules.specs.Cases.{line as wires};
ghost use Rattle.rules.specs.declared.pins.Level.TheVariants.{Low};
ghost use Rattle.schedule.specs.Reading.{at_bank};

use rules::{Access, BankName, Command, Level, Pins, Target};

// A9 names the bank.
fn at_bank(bank: BankName, rest: u16) -> u16
    requires { rest < 1024 }
    ensures { result ≡ at_bank bank rest }
{
    match bank {
        BankName::A => rest,
        BankName::B => 512 + rest,
    }
}

// A8, and a column.
fn at_column(a8: bool, column: u8) -> u16
    ensures { result ≡ at_8 a8 + column }
{
    if a8 {
        256 + u16::from(column)
    } else {
        u16::from(column)
    }
}

// A8 for both banks, else A9 for one.
fn at_target(target: Target) -> u16
    ensures { result ≡ at_target target }
{
    match target {
        Target::One(bank) => at_bank(bank, 0),
        Target::Both => 256,
    }
}

// A selected device, every DQM low.
fn selected(ras: Level, cas: Level, we: Level, dsf: Level, address: u16, dq: u32) -> Pins
    ensures { result ≡ wires Low ras cas we dsf 0 address dq }
{
    Pins {
        cs: Level::Low,
        ras,
        cas,
        we,
        dsf,
        dqm: 0,
        address,
        dq,
    }
}

// RD, WR or BW.
fn column_pins(access: Access, address: u16, dq: u32) -> Pins
    ensures { result ≡ column_pins access address dq }
{
    let (low, high) = (Level::Low, Level::High);
    match access {
        Access::Read => selected(high, low, high, low, address, dq),
        Access::Write => selected(high, low, low, low, address, dq),
        Access::Block => selected(high, low, low, high, address, dq),
    }
}

// The pins that bring a command, with dq on the data pins. Of a row the low nine bits count, of a code the low ten.
pub fn pins_for(command: Command, dq: u32) -> Pins
    ensures { result ≡ pins_of command dq }
{
    let (low, high) = (Level::Low, Level::High);
    match command {
        Command::Inhibit => Pins {
            cs: high,
            ras: high,
            cas: high,
            we: high,
            dsf: low,
            dqm: 0,
            address: 0,
            dq,
        },
        Command::Nop => selected(high, high, high, low, 0, dq),
        Command::Stop => selected(high, high, low, low, 0, dq),
        Command::Column {
            access,
            bank,
            a8,
            column,
        } => column_pins(access, at_bank(bank, at_column(a8, column)), dq),
        Command::Activate { masked, bank, row } => {
            let dsf = if masked { high } else { low };
            selected(low, high, high, dsf, at_bank(bank, row % 512), dq)
        }
        Command::Precharge(target) => selected(low, high, low, low, at_target(target), dq),
        Command::Refresh => selected(low, low, high, low, 0, dq),
        Command::LoadMode { code } => selected(low, low, low, low, code % 1024, dq),
        Command::LoadSpecial { code } => selected(low, low, low, high, code % 1024, dq),
    }
}

// Each command is decoded from its pins again.
pub fn commands_encoded()
    ensures { Encodes }
{}
