ghost use Rattle.std.specs.Prelude.{◌≡◌, ◌^◌, ◌<◌, true};
ghost use Rattle.rules.specs.State.{at};
ghost use Rattle.beats.specs.Inside.{row_in};
ghost use Rattle.control.specs.View.{Bounds};

use super::Control;
use rules::{Bank, BankName, Fault};
use sheet::Sheet;

impl Control {
    pub fn sheet(&self) -> Sheet
        ensures { result ≡ self.now.sheet }
    {
        let Control { sheet, .. } = self;
        *sheet
    }

    pub fn rows(&self) -> u32
        ensures { result ≡ self.now.sheet.rows }
    {
        self.sheet.rows
    }

    // The clocks since switch-on that were no fault.
    pub fn count(&self) -> u64
        ensures is { result ≡ self.now.clock }
        ensures below { result < 2 ^ 62 }
    {
        self.clock
    }

    // The first fault since switch-on.
    pub fn fault(&self) -> Option<Fault>
        ensures { result ≡ self.now.fault }
    {
        self.fault
    }

    pub fn bank(&self, name: BankName) -> Bank
        ensures is { result ≡ at self.now.banks name }
        ensures inside { row_in self.now.sheet.rows result.row ≡ true }
    {
        self.table.get(name)
    }

    // What the type keeps, for who holds a command state. Computes nothing.
    pub fn bounds(&self)
        ensures { Bounds self.now }
    {
        let _ = self.marks.oldest();
    }
}
