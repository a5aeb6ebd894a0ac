// The text form of a pin trace: a sheet line, then a line for each clock.
#![tactic(auto)]

mod body;
mod clock;
mod clocks;
mod digits;
mod opening;
mod reading;
mod refusal;
mod text;

pub use body::{clock_lines, pins_at};
pub use clock::clock_line;
pub use clocks::Clocks;
pub use opening::{LIMIT, heading};
pub use reading::lines;
pub use refusal::Refusal;
pub use text::{Opening, Trace};
