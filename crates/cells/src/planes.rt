ghost use Rattle.std.specs.Prelude.{◌≡◌, ◌+◌, ◌*◌, ◌^◌, ◌<◌, length, slice_index};
ghost use Rattle.rules.specs.Words.{bit};
ghost use Rattle.cells.specs.Planes.{number, first, planed, brush, ink, brushed, LaidOut, Told, AllTold, SameBytes};
ghost use borrow.Author.Rules.{rules};

use crate::layout::Layout;
use crate::masked::merged;

// 2,048 bytes a row, 32 bit planes of 64.
pub struct Planes;

// The byte of plane 0 in which the address has its column.
fn first_byte(rows: usize, address: usize) -> usize
    requires address_bound { address < 512 * rows }
    requires rows_bound { 2048 * rows < 2 ^ 63 }
    ensures { result ≡ first rows address }
{
    let line = address / 256;
    let start = if line < rows {
        2048 * line
    } else {
        2048 * (line - rows) + 32
    };
    start + address % 256 / 8
}

// Bit k of one byte in each plane.
fn gather(bytes: &[u8], at: usize, k: usize) -> u32
    requires within { at + 1984 < length bytes.now }
    requires bit { k < 8 }
    ensures { result ≡ number (λ i. bit (slice_index bytes.now (at + 64 * i)) k) 32 }
{
    let mut found = 0u32;
    // By an index: as a fold (tried), the closure owes that 2 * found fits whatever it is given.
    for i in (0..32).rev() {
        found = 2 * found + u32::from(bytes[at + 64 * i] >> k & 1);
    }
    found
}

// The columns of a byte in plane i that are reached.
fn reached(columns: u32, mask: u32, i: usize) -> u32
    requires { i < 32 }
    ensures { result ≡ brush columns mask i }
{
    if mask >> i & 1 == 1 {
        columns >> (8 * (i / 8)) & 0xff
    } else {
        0
    }
}

// The colour's bit i, in each column of a byte.
fn inked(colour: u32, i: usize) -> u32
    requires { i < 32 }
    ensures { result ≡ ink colour i }
{
    if colour >> i & 1 == 1 { 255 } else { 0 }
}

// One byte in each plane. Columns, mask and colour are no struct: each is asked by itself below.
fn paint(bytes: &mut [u8], at: usize, columns: u32, mask: u32, colour: u32)
    requires { at + 1984 < length bytes.old }
    ensures { bytes.new ≡ brushed at columns mask colour bytes.old 32 }
{
    // By an index: of what an adapter of iter_mut writes (tried, step_by), a proof knows nothing after the loop.
    for i in 0..32 {
        let p = at + 64 * i;
        let old = u32::from(bytes[p]);
        bytes[p] = merged(reached(columns, mask, i), inked(colour, i), old) as u8;
    }
}

impl Layout for Planes {
    type Cell = u8;

    ghost row = { 2048 };

    ghost words = { planed };

    ghost some = { Prim.search rules };

    ghost past = { Prim.search rules };

    ghost small = { unfold number in λ rows cells a. Prim.search rules };

    fn per_row() -> usize {
        32 * 64
    }

    fn read(cells: &[u8], rows: usize, address: usize) -> u32 {
        let at = first_byte(rows, address);
        gather(cells, at, address % 8)
    }

    // A block write of one column.
    fn write(cells: &mut [u8], rows: usize, address: usize, mask: u32, word: u32) {
        let at = first_byte(rows, address);
        paint(cells, at, 0x0101_0101 << (address % 8), mask, word);
    }

    fn block(cells: &mut [u8], rows: usize, address: usize, columns: u32, mask: u32, colour: u32) {
        let at = first_byte(rows, address);
        paint(cells, at, columns, mask, colour);
    }
}

// Which bit of the memory holds which bit of a word, and that the words tell each byte of their rows.
pub fn planes_stand()
    ensures bits { LaidOut }
    ensures bytes { AllTold }
    ensures same { SameBytes }
{}

// The words tell each byte of their rows in this memory. The loop is for the proof, which knows a byte below 256 where it is read.
pub fn planes_told(bytes: &[u8], rows: usize)
    ensures { Told rows bytes.now }
{
    for byte in bytes {
        let _read = *byte;
    }
}
