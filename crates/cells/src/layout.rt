ghost use Rattle.std.specs.Prelude.{◌≡◌, ℕ, ◌*◌, ◌/◌, ◌^◌, ◌<◌, ◌≤◌, min, List, length, drop, nat_le};
ghost use Rattle.rules.specs.Cells.{written, painted};

// How memory holds the words of a device of so many rows, 512 words a row. Memory and rows are two arguments: a struct of
// both, with the fact that they fit, would be two, for `&` and for `&mut`, and be made anew at each clock.
pub trait Layout {
    // what the memory is a slice of
    type Cell;

    // how many cells a row takes
    ghost row: { ℕ };

    // rows and memory give the word at each address
    ghost words: { ℕ → List Self.Cell → ℕ → ℕ };

    // How many cells a row takes.
    fn per_row() -> usize
        ensures { result ≡ row };

    // As many of the rows as fit.
    fn fitting(cells: &[Self::Cell], rows: usize) -> usize
        ensures most { result ≡ min rows (length cells.now / row) }
        ensures fit { row * result ≤ length cells.now }
        ensures all { row * rows ≤ length cells.now → result ≡ rows }
    {
        rows.min(cells.len() / Self::per_row())
    }

    // Whether the memory holds all the rows.
    fn enough(cells: &[Self::Cell], rows: usize) -> bool
        ensures { result ≡ nat_le (row * rows) (length cells.now) }
    {
        rows <= cells.len() / Self::per_row()
    }

    // The word at the address.
    fn read(cells: &[Self::Cell], rows: usize, address: usize) -> u32
        requires fit { row * rows ≤ length cells.now }
        requires within { address < 512 * rows }
        ensures { result ≡ words rows cells.now address };

    // The bits of `mask` of the word at the address take those of `word`.
    fn write(cells: &mut [Self::Cell], rows: usize, address: usize, mask: u32, word: u32)
        requires fit { row * rows ≤ length cells.old }
        requires within { address < 512 * rows }
        ensures words { words rows cells.new ≡ written address mask word (words rows cells.old) }
        ensures rest { drop (row * rows) cells.new ≡ drop (row * rows) cells.old }
        ensures length { length cells.new ≡ length cells.old };

    // Of the eight words around the address, column k takes the colour's lane j where bit 8j + k of `columns` is 1, in the bits of `mask`.
    fn block(
        cells: &mut [Self::Cell],
        rows: usize,
        address: usize,
        columns: u32,
        mask: u32,
        colour: u32,
    )
        requires fit { row * rows ≤ length cells.old }
        requires within { address < 512 * rows }
        ensures words { words rows cells.new ≡ painted address columns mask colour (words rows cells.old) }
        ensures rest { drop (row * rows) cells.new ≡ drop (row * rows) cells.old }
        ensures length { length cells.new ≡ length cells.old };

    // a row takes memory
    ghost some: { 0 < row };

    // past the last address there is zero
    ghost past: { (rows : ℕ) (cells : List Self.Cell) (a : ℕ) → 512 * rows ≤ a → words rows cells a ≡ 0 };

    // each is a word of 32 bits
    ghost small: { (rows : ℕ) (cells : List Self.Cell) (a : ℕ) → words rows cells a < 2 ^ 32 };
}
