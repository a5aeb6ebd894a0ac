// A command as pins, and what a command leaves in a driver's ledger.
#![tactic(auto)]

mod noting;
mod signals;

pub use noting::noted;
pub use signals::{commands_encoded, pins_for};
