ghost use Rattle.std.specs.Prelude.{◌≡◌, ℕ, ◌<◌, ◌^◌};
ghost use Rattle.rules.specs.Step.{code_of};
ghost use Rattle.schedule.specs.Ledger.{period};
ghost use Rattle.schedule.specs.After.{after, is_load, is_block, next_register, next_track};

use rules::{Access, BankName, Command, Register};
use schedule::{Ledger, Track};
use sheet::Sheet;

// LMR or LSMR.
fn is_load(command: Command) -> bool
    ensures { result ≡ is_load command }
{
    matches!(
        command,
        Command::LoadMode { .. } | Command::LoadSpecial { .. }
    )
}

// BW.
fn is_block(command: Command) -> bool
    ensures { result ≡ is_block command }
{
    matches!(
        command,
        Command::Column {
            access: Access::Block,
            ..
        }
    )
}

// What a register holds after a command that came with dq on the data pins.
fn next_register(register: Register, dq: u32, held: u32, command: Command) -> u32
    ensures { result ≡ next_register (code_of register) dq held command }
{
    match command {
        Command::LoadSpecial { code } if code == register.code() => dq,
        _ => held,
    }
}

// From one refresh to the next.
fn period(sheet: Sheet) -> u64
    ensures { result ≡ period sheet }
{
    u64::from((sheet.ret - 1024) / sheet.n)
}

// One bank under a command at clock t.
fn noted_track(t: u64, command: Command, bank: BankName, track: Track) -> Track
    ensures { result ≡ next_track t command bank track }
{
    let mut next = track;
    match command {
        Command::Column {
            access: Access::Write | Access::Block,
            bank: named,
            ..
        } => {
            if named == bank {
                next.written = t;
            }
        }
        Command::Activate {
            masked: _,
            bank: named,
            row,
        } => {
            if named == bank {
                next.row = Some(row);
                next.opened = t;
            }
        }
        Command::Precharge(target) => {
            if target.includes(bank) && track.row.is_some() {
                next.row = None;
                next.closed = t;
            }
        }
        _ => {}
    }
    next
}

// The ledger after a command that came with dq on the data pins.
pub fn noted(ledger: Ledger, sheet: Sheet, command: Command, dq: u32) -> Ledger
    requires counted { ledger.clock < 2 ^ 62 }
    requires due { ledger.due < 2 ^ 63 }
    ensures { result ≡ after sheet dq command ledger }
{
    let t = ledger.clock + 1;
    let mut next = ledger;
    next.clock = t;
    if command.is_refresh() {
        next.due += period(sheet);
        next.free = t + u64::from(sheet.rc);
    } else if is_load(command) {
        next.free = t + 2;
    }
    if is_block(command) {
        next.block = t;
    }
    next.mask = next_register(Register::Mask, dq, ledger.mask, command);
    next.colour = next_register(Register::Colour, dq, ledger.colour, command);
    next.a = noted_track(t, command, BankName::A, ledger.a);
    next.b = noted_track(t, command, BankName::B, ledger.b);
    next
}
