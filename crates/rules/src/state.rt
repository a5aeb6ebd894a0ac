// What a device is at between two clocks, in parts.
use crate::pins::{Access, BankName};

// An open row, and whether ACTM opened it.
#[derive(Clone, Copy)]
pub struct OpenRow {
    pub row: u16,
    pub masked: bool,
}

// Each time is the clock of the last event of its kind, if there was one.
#[derive(Clone, Copy)]
pub struct Bank {
    // none where the bank is idle
    pub row: Option<OpenRow>,
    pub opened: Option<u64>,
    pub closed: Option<u64>,
    // the last data written with a low DQM bit
    pub written: Option<u64>,
}

#[derive(Clone, Copy)]
pub enum Length {
    One,
    Two,
    Four,
    Eight,
}

#[derive(Clone, Copy)]
pub struct Mode {
    pub length: Length,
    pub interleaved: bool,
}

// What LSMR loads.
#[derive(Clone, Copy, PartialEq, Eq, Debug)]
pub enum Register {
    Mask,
    Colour,
}

#[derive(Clone, Copy)]
pub struct Registers {
    pub mode: Mode,
    pub mask: u32,
    pub colour: u32,
}

// A burst of reads or writes, in the mode in which it began, and the number of the beat that is due.
#[derive(Clone, Copy)]
pub struct Burst {
    pub access: Access,
    pub bank: BankName,
    pub from: u8,
    pub next: u8,
    pub mode: Mode,
}

// The steps of power-up that have been taken; of the refreshes two count.
#[derive(Clone, Copy)]
pub struct Steps {
    pub closed: bool,
    pub loaded: bool,
    pub refreshes: u8,
}

// The clocks of the last refresh, of the last load of a register, and of the last block write.
#[derive(Clone, Copy)]
pub struct Past {
    pub refreshed: Option<u64>,
    pub loaded: Option<u64>,
    pub blocked: Option<u64>,
}

// The access that is done at a clock.
#[derive(Clone, Copy)]
pub struct Beat {
    pub access: Access,
    pub bank: BankName,
    pub column: u8,
}

// What a clock does to the cells.
#[derive(Clone, Copy)]
pub enum Work {
    Nothing,
    // a read beat takes the word at the address
    Take {
        address: u32,
    },
    // the bits of `mask` of the word at the address take those of `word`
    Store {
        address: u32,
        mask: u32,
        word: u32,
    },
    // in the eight words around the address, column k takes the colour's lane j where bit 8j + k of `columns` is 1,
    // in the bits of `mask`
    Paint {
        address: u32,
        columns: u32,
        mask: u32,
        colour: u32,
    },
}
