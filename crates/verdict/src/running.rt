// The clocks of a text on a device just switched on.
ghost use Rattle.std.specs.Prelude.{◌≡◌, ◌+◌, ◌*◌, ◌<◌, ◌≤◌, ◌++◌, length, drop};
ghost use Rattle.rules.specs.Meaning.{run};
ghost use Rattle.cells.specs.Planes.{planed, picture};
ghost use Rattle.device.specs.Cells.{fresh};
ghost use Rattle.verdict.specs.Wrote.{Wrote};
ghost use Rattle.verdict.specs.Page.{page};

use crate::clocking::clock_through;
use crate::writing::Page;
use cells::Planes;
use device::{CellDevice, Device};
use rules::BankName;
use sheet::Sheet;
use trace::Clocks;

// Runs the clocks on the planes as they are, and writes the whole output; answers its length. Afterwards the planes
// hold the device's cells, and past its rows what they held.
pub fn run_lines(sheet: Sheet, clocks: Clocks<'_>, planes: &mut [u8], out: &mut [u8]) -> usize
    requires fit { 2048 * sheet.rows ≤ length planes.old }
    requires few { length clocks < 9999 }
    requires room { 16 * length clocks + 64 ≤ length out.old }
    ensures wrote { Wrote out.old 0 (page (fresh 2048 planed sheet planes.old) clocks.entry) out.new result }
    ensures planes { planes.new ≡ picture sheet.rows (run (fresh 2048 planed sheet planes.old) clocks.entry).cells ++ drop (2048 * sheet.rows) planes.old }
{
    let count = clocks.len();
    let mut device: CellDevice<'_, Planes> = CellDevice::new(planes, sheet);
    let mut page = Page::new(out);
    clock_through(&mut device, clocks, &mut page);
    let a = device.row(BankName::A);
    let b = device.row(BankName::B);
    page.state(a, b, count as u64, device.fault());
    page.len()
}
