ghost use Rattle.driver.specs.Told.{RequestsTold};

use device::Device;

// What the book says of a read and of a wait, told without it: the answer, and the driver's ledger after it.
pub fn requests_told<D: Device>()
    ensures { RequestsTold D.Device }
{}
