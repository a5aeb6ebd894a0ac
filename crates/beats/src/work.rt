// What a beat does to the cells.
ghost use Rattle.std.specs.Prelude.{◌≡◌, ◌*◌, ◌%◌, ◌<◌, true};
ghost use Rattle.rules.specs.Words.{low, wide};
ghost use Rattle.rules.specs.Cells.{place, reach, work_in};
ghost use Rattle.beats.specs.Inside.{row_in, Inside};

use rules::{Access, BankName, Beat, OpenRow, Pins, Registers, Work};
use sheet::Sheet;

// The lanes whose DQM bit is low.
pub fn low_lanes(dqm: u8) -> u8
    ensures { result ≡ low dqm }
{
    if dqm <= 15 { 15 - dqm } else { 0 }
}

// All bits of the given lanes.
pub fn lane_bits(lanes: u8) -> u32
    ensures { result ≡ wide lanes }
{
    let l = u32::from(lanes);
    255 * (l % 2 + 256 * (l / 2 % 2 + 256 * (l / 4 % 2 + 256 * (l / 8 % 2))))
}

// The bits that a write reaches.
fn reach_of(dqm: u8, masked: bool, mask: u32) -> u32
    ensures { result ≡ reach dqm masked mask }
{
    let through = if masked { mask } else { 0xffff_ffff };
    lane_bits(low_lanes(dqm)) & through
}

fn locate(sheet: &Sheet, bank: BankName, row: u16, column: u8) -> u32
    ensures is { result ≡ place sheet.now.rows bank row column }
    ensures inside { row < sheet.now.rows → result < sheet.now.rows * 512 }
{
    let base = match bank {
        BankName::A => 0,
        BankName::B => sheet.rows * 256,
    };
    base + u32::from(row) * 256 + u32::from(column)
}

// The work of a beat in a bank, by the bank's row.
pub fn work_in(
    sheet: &Sheet,
    registers: Registers,
    pins: Pins,
    beat: Beat,
    row: Option<OpenRow>,
) -> Work
    ensures is { result ≡ work_in sheet.now.rows registers pins beat.access beat.bank beat.column row }
    ensures inside { row_in sheet.now.rows row ≡ true → Inside (sheet.now.rows * 512) result }
{
    let Some(OpenRow { row, masked }) = row else {
        return Work::Nothing;
    };
    let dqm = pins.dqm % 16;
    let address = locate(sheet, beat.bank, row, beat.column);
    match beat.access {
        Access::Read => Work::Take { address },
        Access::Write => Work::Store {
            address,
            mask: reach_of(dqm, masked, registers.mask),
            word: pins.dq,
        },
        Access::Block => Work::Paint {
            address,
            columns: pins.dq,
            mask: reach_of(dqm, masked, registers.mask),
            colour: registers.colour,
        },
    }
}
