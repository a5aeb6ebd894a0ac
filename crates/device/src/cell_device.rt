// The command state over cells in lent memory, whatever their layout.
ghost use Rattle.std.specs.Prelude.{◌*◌, ◌≤◌, length};

use cells::{Layout, Planes, Words};
use control::Control;
use lines::Delay;

pub mod clocked;
mod made;
mod ticked;

#[derive(Drop)]
pub struct CellDevice<'a, L: Layout> {
    cells: &'a mut [L::Cell],
    control: Control,
    // the words of the read beats in the line
    words: Delay<u32>,
    // the memory holds the rows
    ghost fit: { L.Layout.row * control.sheet.rows ≤ length cells.now },
}

// 512 words a row.
pub type WordDevice<'a> = CellDevice<'a, Words>;

// 32 bit planes in 2,048 bytes a row.
pub type PlaneDevice<'a> = CellDevice<'a, Planes>;
