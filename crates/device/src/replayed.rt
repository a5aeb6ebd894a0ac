// A whole trace on lent memory.
ghost use Rattle.std.specs.Prelude.{◌≡◌, ◌*◌, ◌/◌, min, length, drop};
ghost use Rattle.rules.specs.Meaning.{run};
ghost use Rattle.device.specs.Cells.{fresh, rows_in};

use crate::cell_device::CellDevice;
use crate::device::Device;
use cells::Layout;
use rules::{Fault, Pins};
use sheet::Sheet;

// Clocks a device just switched on, on lent memory; answers its fault. Afterwards the memory holds the device's cells,
// and past its rows what it held.
pub fn replay<L: Layout>(memory: &mut [L::Cell], sheet: Sheet, pins: &[Pins]) -> Option<Fault>
    ensures fault { result ≡ (run (fresh L.Layout.row L.Layout.words sheet memory.old) pins.now).state.fault }
    ensures words { L.Layout.words (rows_in L.Layout.row sheet memory.old) memory.new ≡ (run (fresh L.Layout.row L.Layout.words sheet memory.old) pins.now).cells }
    ensures rest { drop (L.Layout.row * rows_in L.Layout.row sheet memory.old) memory.new ≡ drop (L.Layout.row * rows_in L.Layout.row sheet memory.old) memory.old }
{
    let mut device: CellDevice<'_, L> = CellDevice::new(memory, sheet);
    device.play(pins);
    device.fault()
}
