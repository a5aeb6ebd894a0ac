// Words written and filled over a channel: registers, an open row, and runs over rows. They refuse nothing: each says
// what it asks.
#![tactic(auto)]

mod aiming;
mod filling;
mod laws;
mod registers;
mod writing;

pub use aiming::aim;
pub use filling::paint;
pub use laws::drawn_soon;
pub use registers::load;
pub use rules::Register;
pub use writing::store;
