use device::Device;
use std::marker::Model;

// A driver whose device is on and has had its pause.
#[derive(Drop)]
pub struct Settled<D: Device> {
    pub(crate) device: D,
}

// Clauses see the device.
impl<D: Device> Model for Settled<D> {
    ghost use Rattle.driver.specs.States.{IsSettled};

    ghost Value = { D };

    ghost view = { λ s. s.device };

    ghost invariant = { λ s. IsSettled D.Device.reachable D.Device.meaning s.device };
}
