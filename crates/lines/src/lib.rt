// What a device remembers of the past: distances from events, delay lines, refresh marks.
#![tactic(auto)]

mod delay;
mod laws;
mod marks;
mod time;

pub use delay::{Delay, Depth};
pub use laws::line_delays;
pub use marks::Marks;
pub use time::{is_over, is_short};
