use crate::examples::{LASTING, REFUSED, drawn, prompt};
use crate::sessions::{Session, serve};
use cells::{Layout, Planes, Words};
use device::{CellDevice, Device};
use interlock::Interlock;
use sheet::Sheet;
use std::alloc::{AllocError, Global};

// The word at each address of four rows is the address.
fn number<L: Layout>(cells: &mut [L::Cell]) {
    if L::enough(cells, 4) {
        for address in 0..2048 {
            L::write(cells, 4, address, u32::MAX, address as u32);
        }
    }
}

// All examples. The device is released and settled again in between.
fn sessions<D: Device>(device: &mut D, sheet: Sheet) -> [Session; 4] {
    [
        serve(device, &REFUSED),
        serve(device, &prompt(sheet)),
        serve(device, &drawn(sheet)),
        serve(device, &LASTING),
    ]
}

// On a device as it is, and then under an interlock.
fn bare_and_guarded<D: Device>(device: &mut D, sheet: Sheet) -> [[Session; 4]; 2] {
    let bare = sessions(device, sheet);
    let mut layer = Interlock::new(device);
    [bare, sessions(&mut layer, sheet)]
}

// On the word device and on the plane device, each bare and guarded.
pub fn on_four(heap: Global, sheet: Sheet) -> Result<[[Session; 4]; 4], AllocError> {
    let mut words = vec![in heap; 0u32; 2048]?;
    let mut planes = vec![in heap; 0u8; 8192]?;
    number::<Words>(&mut words);
    number::<Planes>(&mut planes);
    let mut word_device: CellDevice<'_, Words> = CellDevice::new(&mut words, sheet);
    let mut plane_device: CellDevice<'_, Planes> = CellDevice::new(&mut planes, sheet);
    let [a, b] = bare_and_guarded(&mut word_device, sheet);
    let [c, d] = bare_and_guarded(&mut plane_device, sheet);
    Ok([a, b, c, d])
}
