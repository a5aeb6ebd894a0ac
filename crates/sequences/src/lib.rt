// A driver's command sequences over any device. They refuse nothing: each says what it asks.
#![tactic(auto)]

mod channel;
mod rows;
mod stepping;
mod tidying;
mod times;
mod waiting;

pub use channel::Channel;
