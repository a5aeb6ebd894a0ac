ghost use Rattle.std.specs.Prelude.{◌≡◌, ◌*◌, ◌^◌, ◌<◌, ◌≤◌, true, length, drop};
ghost use Rattle.rules.specs.Cells.{done, taken};
ghost use Rattle.rules.specs.State.{at};
ghost use Rattle.rules.specs.Meaning.{step, out, switch_on, run};
ghost use Rattle.beats.specs.Inside.{Inside, row_in};
ghost use Rattle.control.specs.View.{Bounds};
ghost use Rattle.device.specs.Cells.{meaning_of, Keeps};

use super::CellDevice;
use beats::lane_bits;
use cells::Layout;
use control::Moved;
use lines::{Delay, Depth};
use rules::{BankName, OpenRow, Pins, Work};

// What a clock does to the cells; answers the word that a read beat takes.
fn perform<L: Layout>(cells: &mut [L::Cell], rows: u32, work: Work) -> u32
    requires fit { L.Layout.row * rows ≤ length cells.old }
    requires inside { Inside (rows * 512) work }
    ensures taken { result ≡ taken work (L.Layout.words rows cells.old) }
    ensures words { L.Layout.words rows cells.new ≡ done work (L.Layout.words rows cells.old) }
    ensures rest { drop (L.Layout.row * rows) cells.new ≡ drop (L.Layout.row * rows) cells.old }
    ensures length { length cells.new ≡ length cells.old }
{
    let rows = rows as usize;
    match work {
        Work::Nothing => 0,
        Work::Take { address } => L::read(cells, rows, address as usize),
        Work::Store {
            address,
            mask,
            word,
        } => {
            L::write(cells, rows, address as usize, mask, word);
            0
        }
        Work::Paint {
            address,
            columns,
            mask,
            colour,
        } => {
            L::block(cells, rows, address as usize, columns, mask, colour);
            0
        }
    }
}

impl<L: Layout> CellDevice<'_, L> {
    // A bank's row, if one is open.
    pub fn row(&self, bank: BankName) -> Option<OpenRow>
        ensures is { result ≡ (at self.now.control.banks bank).row }
        ensures inside { row_in self.now.control.sheet.rows result ≡ true }
    {
        self.control.bank(bank).row
    }

    // The clocks since switch-on that were no fault.
    pub fn count(&self) -> u64
        ensures is { result ≡ self.now.control.clock }
        ensures below { result < 2 ^ 62 }
    {
        self.control.count()
    }

    // What the type keeps of its command state, for who holds a device. Computes nothing.
    pub fn bounds(&self)
        ensures { Bounds self.now.control }
    {
        self.control.bounds();
    }

    // Switch-on; the memory stays as it is.
    pub fn wake(&mut self)
        ensures after { meaning_of self.new ≡ switch_on (meaning_of self.old) }
        ensures lender { self.new.cells.ghost_name ≡ self.old.cells.ghost_name }
        ensures memory { self.new.cells.now ≡ self.old.cells.now }
    {
        let sheet = self.control.sheet();
        self.control.switch_on(sheet);
        self.words = Delay::new(Depth::of_latency(&sheet), 0);
    }

    // A clock; the memory past the rows stays as it is.
    pub fn tick(&mut self, pins: Pins) -> (u8, u32)
        ensures after { meaning_of self.new ≡ step (meaning_of self.old) pins }
        ensures answer { result ≡ out (meaning_of self.old) pins }
        ensures kept { Keeps self.old self.new }
    {
        let rows = self.control.rows();
        match self.control.clock(pins) {
            Err(_) => (0, 0),
            Ok(Moved { work, lanes }) => {
                let word = self.words.front() & lane_bits(lanes);
                let taken = perform::<L>(self.cells, rows, work);
                self.words.push(taken);
                (lanes, word)
            }
        }
    }

    // A list of clocks; the memory past the rows stays as it is.
    pub fn play(&mut self, pins: &[Pins])
        ensures after { meaning_of self.new ≡ run (meaning_of self.old) pins.now }
        ensures kept { Keeps self.old self.new }
    {
        for p in pins {
            let _ = self.tick(*p);
        }
    }
}
