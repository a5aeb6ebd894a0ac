// A device that keeps the pins that it was given.
#![tactic(auto)]

mod keeping;
mod record;

pub use record::Recorder;
