// Two banks in one table, and the tests by which a clock is judged.
#![tactic(auto)]

mod distances;
mod places;
mod table;
mod times;

pub use distances::is_too_close;
pub use places::{is_clash, is_malformed, is_out_of_place};
pub use table::Table;
pub use times::{is_forbidden, is_open_long, is_too_soon};
