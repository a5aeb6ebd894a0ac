ghost use Rattle.driver.specs.States.{Rest};

use device::Device;
use sequences::Channel;

// A driver that takes requests.
#[derive(Drop)]
pub struct Ready<D: Device> {
    pub(crate) channel: Channel<D>,
    // between requests
    pub ghost rest: { ∥ Rest D.Device.reachable D.Device.meaning channel ∥₁ },
}
