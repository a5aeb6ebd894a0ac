ghost use Rattle.std.specs.Prelude.{◌≡◌};
ghost use Rattle.sheet.specs.Lowered.{lowered, SheetsSame};

use crate::sheet::Sheet;

impl Sheet {
    // The same sheet with at most so many rows.
    pub fn lowered(mut self, most: u32) -> Sheet
        ensures { result ≡ lowered self most }
    {
        self.rows = self.rows.min(most);
        self
    }
}

// Sheets are the same where their numbers are.
pub fn sheets_same()
    ensures { SheetsSame }
{}
