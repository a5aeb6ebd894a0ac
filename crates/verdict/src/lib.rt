// The judge: what it says of any text, over plane memory and an output that a host lends.
#![tactic(auto)]

mod clocking;
mod examined;
mod host;
mod judgement;
mod laws;
mod page;
mod planes;
mod running;
mod writing;

pub use host::{Verdict, sgram_judge};
pub use judgement::judge;
pub use laws::verdict_stands;
