// The words of a device in lent memory, in two layouts: as words, or in bit planes.
#![tactic(auto)]

mod layout;
mod masked;
mod planes;
mod words;

pub use layout::Layout;
pub use planes::{Planes, planes_stand, planes_told};
pub use words::Words;
