use crate::refusal::Refusal;
use pen::Pen;

// What is asked of a ready driver.
#[derive(Drop)]
pub enum Request {
    // fills the buffer with the words from the address on
    Read {
        address: u32,
        buffer: Vec<u32>,
    },
    // stores the words from the address on
    Write {
        pen: Pen,
        address: u32,
        words: Vec<u32>,
    },
    // puts the pen's colour in so many words from the address on
    Fill {
        pen: Pen,
        address: u32,
        length: u32,
    },
    // lets at least so many clocks pass
    Wait {
        clocks: u32,
    },
}

// A request and, once it was served, its answer: the clocks that passed, or why it was turned away.
#[derive(Drop)]
pub struct Job {
    pub request: Request,
    pub answer: Option<Result<u32, Refusal>>,
}
