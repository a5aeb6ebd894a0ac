// Examples on any device in which the word at each address is the address.

use crate::examples::{Example, Reply, Request};
use device::Device;
use driver::{Off, Ready};
use pen::Pen;
use rules::{Fault, Level, Pins};

// What came of some examples.
#[derive(Clone, Copy)]
pub struct Session {
    // the first that was answered otherwise, and its answer
    pub wrong: Option<(usize, Reply)>,
    pub fault: Option<Fault>,
    // the clocks that the device had and that no request answered
    pub untold: u64,
}

// In a buffer before a read.
const UNREAD: u32 = 5000;

// Whether the first word and the step from each to the next are these.
fn go_up(words: &[u32], first: u32, by: u32) -> bool {
    let mut next = first;
    for word in words {
        if *word != next {
            return false;
        }
        next = next.wrapping_add(by);
    }
    true
}

// Reads at most 257 words; a refused read leaves the buffer as it was.
fn read<D: Device>(ready: &mut Ready<D>, address: u32, length: usize) -> Reply {
    let mut buffer = [UNREAD; 257];
    let words = &mut buffer[0..length.min(257)];
    let answer = ready.read(address, words);
    let right = match answer {
        Ok(_) => go_up(words, address, 1),
        Err(_) => go_up(words, UNREAD, 0),
    };
    if right { Some(answer) } else { None }
}

// Writes at most 257 words, each its address.
fn write<D: Device>(ready: &mut Ready<D>, address: u32, length: usize) -> Reply {
    let pen = Pen {
        lanes: 0xf,
        mask: u32::MAX,
        colour: 0,
    };
    let mut words = [0u32; 257];
    for (i, word) in words.iter_mut().enumerate() {
        *word = address.wrapping_add(i as u32);
    }
    Some(ready.write(&pen, address, &words[0..length.min(257)]))
}

// Fills with a pen that reaches no bit.
fn fill<D: Device>(ready: &mut Ready<D>, address: u32, length: u32) -> Reply {
    let pen = Pen {
        lanes: 0xf0,
        mask: u32::MAX,
        colour: u32::MAX,
    };
    Some(ready.fill(&pen, address, length))
}

fn ask<D: Device>(ready: &mut Ready<D>, request: Request) -> Reply {
    match request {
        Request::Read(address, length) => read(ready, address, length),
        Request::Write(address, length) => write(ready, address, length),
        Request::Fill(address, length) => fill(ready, address, length),
        Request::Wait(clocks) => Some(ready.wait(clocks)),
    }
}

// The first example that is answered otherwise, and the clocks of all together.
fn ask_all<D: Device>(ready: &mut Ready<D>, examples: &[Example]) -> (Option<(usize, Reply)>, u64) {
    let mut wrong = None;
    let mut told = 0u64;
    for (i, (request, due)) in examples.iter().enumerate() {
        let reply = ask(ready, *request);
        if let Some(Ok(clocks)) = reply {
            told = told.wrapping_add(u64::from(clocks));
        }
        if wrong.is_none() && !due.is_met(reply) {
            wrong = Some((i, reply));
        }
    }
    (wrong, told)
}

// How many clocks a device has had: one more is made a fault, whose clock tells.
fn count<D: Device>(device: &mut D) -> u64
    requires { D.Device.reachable device.old }
{
    let low = Level::Low;
    let _ = device.clock(Pins {
        cs: low,
        ras: low,
        cas: low,
        we: low,
        dsf: low,
        dqm: 0,
        address: 0x3ff,
        dq: 0,
    });
    match device.fault() {
        Some(fault) => fault.clock.wrapping_sub(1),
        None => 0,
    }
}

// Settles and primes a device, and asks for the examples.
pub fn serve<D: Device>(device: &mut D, examples: &[Example]) -> Session {
    let mut ready = Off::new(&mut *device).settle().prime();
    let (wrong, told) = ask_all(&mut ready, examples);
    let released = ready.release();
    Session {
        wrong,
        fault: released.fault(),
        untold: count(released).wrapping_sub(told),
    }
}
