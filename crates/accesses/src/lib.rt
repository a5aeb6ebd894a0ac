// Words of an open row over a channel, and runs of words over rows. They refuse nothing: each says what it asks.
#![tactic(auto)]

mod reading;
mod runs;

pub use reading::read_row;
pub use runs::{fetch, locate, words_soon};
