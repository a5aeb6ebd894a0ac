// The pins, the commands that they bring, and the parts of a device's state; specs/ has the whole meaning of a device.
#![tactic(auto)]

mod bank;
mod decoder;
mod edges;
mod fault;
mod laws;
mod parts;
mod pins;
mod state;

pub use decoder::decode;
pub use edges::edges_stand;
pub use fault::{Fault, Rule};
pub use laws::{
    burst_visits, cells_kept, clock_counts, fault_stays, first_fault, marks_kept, runs_join,
};
pub use pins::{Access, BankName, Command, Level, Pins, Target};
pub use state::{Bank, Beat, Burst, Length, Mode, OpenRow, Past, Register, Registers, Steps, Work};
