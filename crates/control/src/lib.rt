// The command state of a device: one machine for the pin rules, without cells.
#![tactic(auto)]

mod command_state;
mod moved;

pub use command_state::Control;
pub use moved::Moved;
