// Rows open too long, power-up, and commands too soon after a refresh or a register load.
ghost use Rattle.std.specs.Prelude.{◌≡◌, ◌||◌};
ghost use Rattle.rules.specs.Faults.{open_long, comes_next, forbidden, too_soon};
ghost use Rattle.judging.specs.Pair.{pair};

use crate::table::Table;
use lines::{is_over, is_short};
use rules::{Bank, BankName, Command, Past, Steps, Target};

fn is_row_old(bank: Bank, most: u32, t: u64) -> bool
    ensures { result ≡ open_long bank most t }
{
    bank.row.is_some() && is_over(bank.opened, most, t)
}

// A row is open over `most` clocks.
pub fn is_open_long(table: &Table, most: u32, t: u64) -> bool
    ensures { result ≡ open_long (pair table.now).a most t || open_long (pair table.now).b most t }
{
    is_row_old(table.get(BankName::A), most, t) || is_row_old(table.get(BankName::B), most, t)
}

fn may_come(closed: bool, command: Command) -> bool
    ensures { result ≡ comes_next closed command }
{
    match command {
        Command::Inhibit | Command::Nop | Command::Stop => true,
        Command::Precharge(target) => target == Target::Both,
        Command::Refresh | Command::LoadMode { code: _ } => closed,
        _ => false,
    }
}

// Power-up forbids the command.
pub fn is_forbidden(steps: Steps, pup: u32, t: u64, command: Command) -> bool
    ensures { result ≡ forbidden steps pup t command }
{
    !command.is_quiet()
        && !steps.ended()
        && !(t > u64::from(pup) && may_come(steps.closed, command))
}

// The command comes under rc after a refresh, or under 2 after a register load.
pub fn is_too_soon(past: Past, rc: u32, t: u64, command: Command) -> bool
    ensures { result ≡ too_soon past rc t command }
{
    !command.is_quiet() && (is_short(past.refreshed, rc, t) || is_short(past.loaded, 2, t))
}
