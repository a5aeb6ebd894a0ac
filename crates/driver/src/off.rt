ghost use Rattle.std.specs.Prelude.{◌≡◌};

use device::Device;

// A driver whose device is in any state.
#[derive(Drop)]
pub struct Off<D: Device> {
    pub(crate) device: D,
}

impl<D: Device> Off<D> {
    pub fn new(device: D) -> Off<D>
        ensures { result.device ≡ device }
    {
        Off { device }
    }
}
