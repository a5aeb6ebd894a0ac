use device::Device;
use driver::{Off, Refusal};

// What a few requests answer.
#[derive(Drop)]
pub struct Clocks {
    pub wait: Result<u32, Refusal>,
    pub from_idle: Result<u32, Refusal>,
    pub in_open: Result<u32, Refusal>,
    pub from_other: Result<u32, Refusal>,
    pub over_banks: Result<u32, Refusal>,
    pub past: Result<u32, Refusal>,
    pub long: Result<u32, Refusal>,
}

// Settles and primes a device of four rows, and reads eight words in different places.
pub fn clocks_of<D: Device>(device: &mut D, buffer: &mut [u32]) -> Clocks {
    let mut ready = Off::new(&mut *device).settle().prime();
    let clocks = Clocks {
        wait: ready.wait(100),
        from_idle: ready.read(1, buffer),
        in_open: ready.read(248, buffer),
        from_other: ready.read(256, buffer),
        over_banks: ready.read(1020, buffer),
        past: ready.read(2048, buffer),
        long: ready.read(2041, buffer),
    };
    let _ = ready.release();
    clocks
}
