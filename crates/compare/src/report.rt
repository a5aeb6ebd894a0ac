use cells::{Planes, Words};
use device::{CellDevice, Device};
use interlock::{Interlock, alike, run_both};
use rules::{Fault, Pins};
use sheet::Sheet;
use std::alloc::{AllocError, Global};

// What four devices made of one trace.
#[derive(Clone, Copy)]
pub struct Report {
    pub words: Option<Fault>,
    pub planes: Option<Fault>,
    pub over_words: Option<Fault>,
    pub over_planes: Option<Fault>,
    // all four drove the same, and are alike at the end
    pub alike: bool,
}

// What a device and an interlock over another made of one trace.
#[derive(Clone, Copy)]
struct Pair {
    plain: Option<Fault>,
    over: Option<Fault>,
    alike: bool,
}

fn beside_interlock<D: Device, E: Device>(plain: &mut D, below: &mut E, pins: &[Pins]) -> Pair {
    let mut over = Interlock::new(&mut *below);
    let agreed = run_both(plain, &mut over, pins);
    Pair {
        plain: plain.fault(),
        over: over.fault(),
        alike: agreed && alike(&*plain, &over),
    }
}

// The trace on the word device, the plane device and an interlock over each, all cells zero.
pub fn compared(heap: Global, sheet: Sheet, pins: &[Pins]) -> Result<Report, AllocError> {
    let rows = sheet.rows as usize;
    let mut words = vec![in heap; 0u32; 512 * rows]?;
    let mut more_words = vec![in heap; 0u32; 512 * rows]?;
    let mut planes = vec![in heap; 0u8; 2048 * rows]?;
    let mut more_planes = vec![in heap; 0u8; 2048 * rows]?;
    let mut first: CellDevice<'_, Words> = CellDevice::new(&mut words, sheet);
    let mut second: CellDevice<'_, Planes> = CellDevice::new(&mut planes, sheet);
    let mut third: CellDevice<'_, Words> = CellDevice::new(&mut more_words, sheet);
    let mut fourth: CellDevice<'_, Planes> = CellDevice::new(&mut more_planes, sheet);
    let in_words = beside_interlock(&mut first, &mut third, pins);
    let in_planes = beside_interlock(&mut second, &mut fourth, pins);
    Ok(Report {
        words: in_words.plain,
        planes: in_planes.plain,
        over_words: in_words.over,
        over_planes: in_planes.over,
        alike: in_words.alike && in_planes.alike && alike(&first, &second),
    })
}

// A device's verdict in the judge's words.
pub fn verdict_line(
    heap: Global,
    name: &str,
    fault: Option<Fault>,
    clocks: usize,
) -> Result<String, AllocError> {
    match fault {
        None => format!(in heap; "{name}\tok\t{clocks}"),
        Some(fault) => {
            let number = fault.rule.number();
            let clock = fault.clock;
            format!(in heap; "{name}\tfault\t{number}\t{clock}")
        }
    }
}
