use cells::{Planes, Words};
use device::{CellDevice, Device};
use interlock::{Interlock, alike, run_both};
use rules::{Fault, Pins};
use sheet::{FIELDS, Sheet};
use std::alloc::{AllocError, Global};

// Which device is the first of the two. By case and no closure: it has another type in each.
#[derive(Clone, Copy, PartialEq, Eq, Debug)]
pub enum First {
    // the word device
    Plain,
    // an interlock over it
    Guarded,
}

// What two devices did with one trace.
#[derive(Clone, Copy)]
pub struct Outcome {
    // they answered the same at every clock
    pub agreed: bool,
    // rows, cells and fault are the same at the end
    pub alike: bool,
    pub fault: Option<Fault>,
    // the first device's word at the address that was asked for
    pub word: u32,
}

fn compared<D: Device, E: Device>(
    first: &mut D,
    second: &mut E,
    pins: &[Pins],
    address: u32,
) -> Outcome {
    let agreed = run_both(first, second, pins);
    Outcome {
        agreed,
        alike: alike(&*first, &*second),
        fault: first.fault(),
        word: first.word(address),
    }
}

// An interlock over the first device, and the second as it is.
fn under_interlock<D: Device, E: Device>(
    below: &mut D,
    second: &mut E,
    pins: &[Pins],
    address: u32,
) -> Outcome {
    let mut first = Interlock::new(below);
    compared(&mut first, second, pins, address)
}

// The word device, or an interlock over it, and the plane device.
pub fn side_by_side(
    heap: Global,
    first: First,
    fields: [u64; FIELDS],
    pins: &[Pins],
    address: u32,
) -> Result<Option<Outcome>, AllocError> {
    let Ok(sheet) = Sheet::admit(fields) else {
        return Ok(None);
    };
    let mut words = vec![in heap; 0u32; 4096]?;
    let mut planes = vec![in heap; 0u8; 16384]?;
    let mut word_device: CellDevice<'_, Words> = CellDevice::new(&mut words, sheet);
    let mut plane_device: CellDevice<'_, Planes> = CellDevice::new(&mut planes, sheet);
    let seen = match first {
        First::Plain => compared(&mut word_device, &mut plane_device, pins, address),
        First::Guarded => under_interlock(&mut word_device, &mut plane_device, pins, address),
    };
    Ok(Some(seen))
}
