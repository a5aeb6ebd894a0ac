use crate::device::Device;
use rules::{Fault, Pins};
use sheet::Sheet;

// A lent device is a device.
impl<D: Device> Device for &mut D {
    ghost meaning = { λ d. D.Device.meaning d.now };

    ghost reachable = { λ d. D.Device.reachable d.now };

    fn switch_on(&mut self) {
        (**self).switch_on();
    }

    fn clock(&mut self, pins: Pins) -> (u8, u32) {
        (**self).clock(pins)
    }

    fn sheet(&self) -> Sheet {
        (**self).sheet()
    }

    fn fault(&self) -> Option<Fault> {
        (**self).fault()
    }

    fn word(&self, address: u32) -> u32 {
        (**self).word(address)
    }
}
