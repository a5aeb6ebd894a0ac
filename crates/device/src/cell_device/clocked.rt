ghost use Rattle.device.specs.Cells.{meaning_of};

use super::CellDevice;
use crate::device::Device;
use cells::Layout;
use rules::{Fault, Pins};
use sheet::Sheet;

impl<L: Layout> Device for CellDevice<'_, L> {
    ghost meaning = { meaning_of };

    // all: that the memory holds the rows is in the type
    ghost reachable = { λ _. Unit {0} };

    fn switch_on(&mut self) {
        self.wake();
    }

    fn clock(&mut self, pins: Pins) -> (u8, u32) {
        self.tick(pins)
    }

    fn sheet(&self) -> Sheet {
        self.control.sheet()
    }

    fn fault(&self) -> Option<Fault> {
        self.control.fault()
    }

    fn word(&self, address: u32) -> u32 {
        let rows = self.control.rows() as usize;
        let address = address as usize;
        if address < 512 * rows {
            L::read(self.cells, rows, address)
        } else {
            0
        }
    }
}
