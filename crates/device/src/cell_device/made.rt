ghost use Rattle.std.specs.Prelude.{◌≡◌, ◌*◌, ◌/◌, length};
ghost use Rattle.sheet.specs.Lowered.{lowered};
ghost use Rattle.device.specs.Cells.{meaning_of, fresh};
ghost use Rattle.device.specs.Memory.{answer, verdict};

use super::CellDevice;
use crate::memory::MemoryError;
use cells::Layout;
use control::Control;
use lines::{Delay, Depth};
use sheet::Sheet;

impl<'a, L: Layout> CellDevice<'a, L> {
    // Whether the memory holds all the sheet's rows.
    pub fn check(cells: &[L::Cell], sheet: &Sheet) -> Result<(), MemoryError>
        ensures { answer result ≡ verdict (L.Layout.row * sheet.now.rows) (length cells.now) }
    {
        if L::enough(cells, sheet.rows as usize) {
            Ok(())
        } else {
            Err(MemoryError::Short)
        }
    }

    // The sheet with the rows that fit.
    fn fitting_sheet(cells: &[L::Cell], sheet: Sheet) -> Sheet
        ensures { result ≡ lowered sheet (length cells.now / L.Layout.row) }
    {
        let rows = L::fitting(cells, sheet.rows as usize);
        sheet.lowered(rows as u32)
    }

    // A device just switched on, with as many of the sheet's rows as fit.
    pub fn new(cells: &'a mut [L::Cell], sheet: Sheet) -> CellDevice<'a, L>
        ensures memory { result.cells.now ≡ cells.old }
        ensures lender { result.cells.ghost_name ≡ cells.entry.ghost_name }
        ensures is { meaning_of result ≡ fresh L.Layout.row L.Layout.words sheet cells.old }
    {
        let sheet = Self::fitting_sheet(cells, sheet);
        CellDevice {
            cells,
            control: Control::new(sheet),
            words: Delay::new(Depth::of_latency(&sheet), 0),
        }
    }
}
