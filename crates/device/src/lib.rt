// What a device is, and the two devices: one keeps words, one keeps bit planes.
#![tactic(auto)]

mod cell_device;
mod device;
mod lent;
mod memory;
mod replayed;

pub use cell_device::{CellDevice, PlaneDevice, WordDevice};
pub use device::Device;
pub use memory::MemoryError;
pub use replayed::replay;
