// The laws that a driver's proof rests on, over the meaning of a device.
#![tactic(auto)]

mod laws;
mod ledger;

pub use laws::{
    addresses_lie, budgets_hold, commands_obeyed, device_wakes, rows_served, words_spread,
};
pub use ledger::{Ledger, Track};
