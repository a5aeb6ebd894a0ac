// Operands that there are not, commands out of place, and writes while the bus is driven.
ghost use Rattle.std.specs.Prelude.{◌≡◌};
ghost use Rattle.rules.specs.Faults.{malformed, some_active, out_of_place, clash};
ghost use Rattle.judging.specs.Pair.{pair};

use crate::table::Table;
use rules::{BankName, Beat, Command, Mode, Register};
use sheet::Sheet;

// The row is not below rows, A8 is high on a column command, or the register code is unlisted.
pub fn is_malformed(sheet: &Sheet, command: Command) -> bool
    ensures { result ≡ malformed sheet.now command }
{
    match command {
        Command::Column { a8, .. } => a8,
        Command::Activate {
            masked: _,
            bank: _,
            row,
        } => u32::from(row) >= sheet.rows,
        Command::LoadMode { code } => !Mode::is_listed(code, sheet.cl),
        Command::LoadSpecial { code } => code != 0 && Register::of_code(code).is_none(),
        _ => false,
    }
}

fn is_some_active(table: &Table) -> bool
    ensures { result ≡ some_active (pair table.now) }
{
    table.get(BankName::A).row.is_some() || table.get(BankName::B).row.is_some()
}

// The banks, or beats that are left, do not allow the command.
pub fn is_out_of_place(table: &Table, busy: bool, command: Command) -> bool
    ensures { result ≡ out_of_place (pair table.now) busy command }
{
    match command {
        Command::Column { bank, .. } => !table.get(bank).row.is_some(),
        Command::Activate {
            masked: _,
            bank,
            row: _,
        } => table.get(bank).row.is_some(),
        Command::Refresh | Command::LoadMode { code: _ } => is_some_active(table),
        Command::LoadSpecial { code: _ } => busy,
        _ => false,
    }
}

// Data is written while a lane is driven, or was at the clock before.
pub fn is_clash(beat: Option<Beat>, lanes: u8, drove: u8) -> bool
    ensures { result ≡ clash beat lanes drove }
{
    beat.is_some_and(|b| b.writes()) && (lanes > 0 || drove > 0)
}
