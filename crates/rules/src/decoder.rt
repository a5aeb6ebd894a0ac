ghost use Rattle.std.specs.Prelude.{◌≡◌};
ghost use Rattle.rules.specs.Pins.{command, named};

use crate::pins::{Access, BankName, Command, Level, Pins, Target};

// A9 names the bank.
fn bank_of(address: u16) -> BankName
    ensures { result ≡ named address }
{
    if address / 512 % 2 == 1 {
        BankName::B
    } else {
        BankName::A
    }
}

// The command that the pins bring.
pub fn decode(pins: Pins) -> Command
    ensures { result ≡ command pins }
{
    let address = pins.address % 1024;
    let bank = bank_of(address);
    let a8 = address / 256 % 2 == 1;
    let column = (address % 256) as u8;
    match (pins.cs, pins.ras, pins.cas, pins.we, pins.dsf) {
        (Level::High, _, _, _, _) => Command::Inhibit,
        (_, Level::High, Level::High, Level::High, _) => Command::Nop,
        (_, Level::High, Level::High, Level::Low, _) => Command::Stop,
        (_, Level::High, Level::Low, Level::High, _) => Command::Column {
            access: Access::Read,
            bank,
            a8,
            column,
        },
        (_, Level::High, Level::Low, Level::Low, Level::Low) => Command::Column {
            access: Access::Write,
            bank,
            a8,
            column,
        },
        (_, Level::High, Level::Low, Level::Low, Level::High) => Command::Column {
            access: Access::Block,
            bank,
            a8,
            column,
        },
        (_, Level::Low, Level::High, Level::High, Level::Low) => Command::Activate {
            masked: false,
            bank,
            row: address % 512,
        },
        (_, Level::Low, Level::High, Level::High, Level::High) => Command::Activate {
            masked: true,
            bank,
            row: address % 512,
        },
        (_, Level::Low, Level::High, Level::Low, _) => Command::Precharge(if a8 {
            Target::Both
        } else {
            Target::One(bank)
        }),
        (_, Level::Low, Level::Low, Level::High, _) => Command::Refresh,
        (_, Level::Low, Level::Low, Level::Low, Level::Low) => Command::LoadMode { code: address },
        (_, Level::Low, Level::Low, Level::Low, Level::High) => Command::LoadSpecial {
            code: address,
        },
    }
}
