// Distances that are too short.
ghost use Rattle.std.specs.Prelude.{◌≡◌};
ghost use Rattle.rules.specs.Faults.{closing_early, too_close};
ghost use Rattle.judging.specs.Pair.{pair};

use crate::table::Table;
use lines::is_short;
use rules::{Bank, BankName, Command};
use sheet::Sheet;

fn is_closing_early(sheet: &Sheet, t: u64, bank: Bank) -> bool
    ensures { result ≡ closing_early sheet.now t bank }
{
    bank.row.is_some()
        && (is_short(bank.opened, sheet.ras, t) || is_short(bank.written, sheet.wr, t))
}

// The command comes too soon after what happened to the banks, or after the last block write.
pub fn is_too_close(
    sheet: &Sheet,
    table: &Table,
    blocked: Option<u64>,
    t: u64,
    command: Command,
) -> bool
    ensures { result ≡ too_close sheet.now (pair table.now) blocked t command }
{
    match command {
        Command::Column { bank, .. } => is_short(table.get(bank).opened, sheet.rcd, t)
            || is_short(blocked, sheet.bwc, t),
        Command::Activate {
            masked: _,
            bank,
            row: _,
        } => {
            let named = table.get(bank);
            is_short(named.closed, sheet.rp, t)
                || is_short(named.opened, sheet.rc, t)
                || is_short(table.get(bank.other()).opened, sheet.rrd, t)
        }
        Command::Precharge(target) => {
            let a = table.get(BankName::A);
            let b = table.get(BankName::B);
            target.includes(BankName::A) && is_closing_early(sheet, t, a)
                || target.includes(BankName::B) && is_closing_early(sheet, t, b)
        }
        Command::Refresh => {
            let a = table.get(BankName::A);
            let b = table.get(BankName::B);
            is_short(a.closed, sheet.rp, t)
                || is_short(b.closed, sheet.rp, t)
                || is_short(a.opened, sheet.rc, t)
                || is_short(b.opened, sheet.rc, t)
        }
        Command::LoadMode { code: _ } => {
            is_short(table.get(BankName::A).closed, sheet.rp, t)
                || is_short(table.get(BankName::B).closed, sheet.rp, t)
        }
        Command::LoadSpecial { code: _ } => is_short(blocked, sheet.bwc, t),
        _ => false,
    }
}
