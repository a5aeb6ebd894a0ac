// The timing sheet of a part: thirteen numbers whose ranges the type carries.
#![tactic(auto)]

mod admit;
mod field;
mod lowered;
mod sheet;

pub use admit::{FIELDS, NAMES, SheetError};
pub use field::Field;
pub use lowered::sheets_same;
pub use sheet::Sheet;
