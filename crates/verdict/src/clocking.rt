// The clocks of a text on the plane device, and what they answer.
ghost use Rattle.std.specs.Prelude.{◌≡◌, ◌+◌, ◌*◌, ◌<◌, ◌≤◌, length, drop};
ghost use Rattle.rules.specs.Meaning.{run, outs};
ghost use Rattle.device.specs.Cells.{meaning_of, Keeps};
ghost use Rattle.verdict.specs.Wrote.{HasRoom, Writes};
ghost use Rattle.verdict.specs.Page.{clocks_text};

use crate::writing::Page;
use cells::Planes;
use device::CellDevice;
use trace::Clocks;

// Clocks the device through a trace, and writes what each clock answers.
pub fn clock_through(device: &mut CellDevice<'_, Planes>, clocks: Clocks<'_>, page: &mut Page<'_>)
    requires few { length clocks < 9999 }
    requires room { HasRoom page.old (16 * length clocks) }
    ensures after { meaning_of device.new ≡ run (meaning_of device.old) clocks.entry }
    ensures writes { Writes page.old (clocks_text 1 (outs (meaning_of device.old) clocks.entry)) page.new }
    ensures bound { page.new.end ≤ page.old.end + 16 * length clocks.entry }
    ensures kept { Keeps device.old device.new }
{
    for (k, pins) in clocks.enumerate() {
        let (lanes, word) = device.tick(pins);
        page.clock(k as u64 + 1, lanes, word);
    }
}
