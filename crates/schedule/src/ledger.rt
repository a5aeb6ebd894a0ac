// What a driver knows of its device, in clocks of its own count.

// One bank. A time is any number where there was no such event yet.
#[derive(Clone, Copy)]
pub struct Track {
    // the open row
    pub row: Option<u16>,
    // the last opening
    pub opened: u64,
    // no closing was later
    pub closed: u64,
    // no data was written later
    pub written: u64,
}

#[derive(Clone, Copy)]
pub struct Ledger {
    // the clocks that have passed
    pub clock: u64,
    // the next refresh is due at this clock
    pub due: u64,
    // from this clock on a command may come that is not quiet
    pub free: u64,
    // from this clock on data may be written
    pub bus: u64,
    // no block write was later
    pub block: u64,
    // what the mask register holds
    pub mask: u32,
    // what the colour register holds
    pub colour: u32,
    pub a: Track,
    pub b: Track,
}
