// Bursts, their beats, and what a beat does to the cells.
#![tactic(auto)]

mod columns;
mod ongoing;
mod work;

pub use ongoing::Ongoing;
pub use work::{lane_bits, low_lanes, work_in};
