// A driver of one device: off, settled, ready, and the requests of a ready one.
#![tactic(auto)]

mod laws;
mod off;
mod ready;
mod requests;
mod settled;
mod waking;

pub use book::Refusal;
pub use laws::requests_told;
pub use off::Off;
pub use ready::Ready;
pub use settled::Settled;
