use device::Device;
use rules::Pins;
use std::alloc::Global;
use std::marker::Model;

// A layer over a device that keeps the pins of every clock since switch-on.
#[derive(Drop)]
pub struct Recorder<D: Device> {
    pub(crate) below: D,
    pub(crate) heap: Global,
    // every clock since switch-on; before the device is switched on, and once a clock was lost for want of memory,
    // no more than room for the next ones
    pub(crate) pins: Result<Vec<Pins>, Vec<Pins>>,
}

// The pins that are kept lead to the device as it is.
impl<D: Device> Model for Recorder<D> {
    ghost use Rattle.std.specs.Result.{result_ok};
    ghost use Rattle.recorder.specs.Kept.{Record, Kept};

    ghost Value = { Record D };

    ghost view = { λ r. record { below = r.below; pins = result_ok r.pins } };

    ghost invariant = { λ r. Kept (D.Device.meaning r.below) (result_ok r.pins) };
}
