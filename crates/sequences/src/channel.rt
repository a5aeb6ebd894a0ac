use device::Device;
use schedule::Ledger;
use sheet::Sheet;
use std::marker::Model;

// A device in use, its sheet, and what the driver knows of it.
#[derive(Drop)]
pub struct Channel<D: Device> {
    pub device: D,
    pub sheet: Sheet,
    pub ledger: Ledger,
}

// The ledger is always true of the device.
impl<D: Device> Model for Channel<D> {
    ghost use Rattle.sequences.specs.Held.{Held};

    ghost Value = { Held D };

    ghost use Rattle.sequences.specs.Gone.{Stands};

    ghost view = { λ s. record { device = s.device; sheet = s.sheet; ledger = s.ledger } };

    ghost invariant = { λ s. Stands D.Device.reachable D.Device.meaning (record { device = s.device; sheet = s.sheet; ledger = s.ledger }) };
}
