ghost use Rattle.std.specs.Prelude.{◌≡◌, ◌<◌};
ghost use Rattle.rules.specs.Words.{wide, chosen};
ghost use Rattle.cells.specs.Words.{worded};
ghost use Rattle.std.proofs.Common.{rules};

use crate::layout::Layout;
use crate::masked::merged;

// 512 words a row, in the order of their addresses.
pub struct Words;

// The bits of a word that `columns` chooses in column k.
fn column(columns: u32, k: usize) -> u32
    requires { k < 8 }
    ensures { result ≡ wide (chosen columns k) }
{
    (columns >> k & 0x0101_0101) * 255
}

impl Layout for Words {
    type Cell = u32;

    ghost row = { 512 };

    ghost words = { worded };

    ghost some = { Prim.search rules };

    ghost past = { Prim.search rules };

    ghost small = { Prim.search rules };

    fn per_row() -> usize {
        2 * 256
    }

    fn read(cells: &[u32], _rows: usize, address: usize) -> u32 {
        cells[address]
    }

    fn write(cells: &mut [u32], _rows: usize, address: usize, mask: u32, word: u32) {
        cells[address] = merged(mask, word, cells[address]);
    }

    fn block(
        cells: &mut [u32],
        _rows: usize,
        address: usize,
        columns: u32,
        mask: u32,
        colour: u32,
    ) {
        let base = address / 8 * 8;
        let block = &mut cells[base..base + 8];
        for (k, word) in block.iter_mut().enumerate() {
            *word = merged(column(columns, k) & mask, colour, *word);
        }
    }
}
