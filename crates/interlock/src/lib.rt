// An interlock over any device, and the question whether two devices are alike.
#![tactic(auto)]

mod agreement;
mod laws;
mod layer;
mod likeness;

pub use agreement::run_both;
pub use laws::devices_agree;
pub use layer::Interlock;
pub use likeness::alike;
