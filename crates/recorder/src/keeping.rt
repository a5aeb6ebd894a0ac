ghost use Rattle.std.specs.Prelude.{◌≡◌, [], ◌∷◌, ◌++◌, IfSome, None};
ghost use Rattle.std.specs.Result.{result_ok};
ghost use Rattle.recorder.specs.Kept.{below_meaning, below_reachable, Kept, Led, Extended};

use crate::record::Recorder;
use device::Device;
use rules::{Fault, Pins};
use sheet::Sheet;
use std::alloc::Global;
use std::mem::replace;

// No clock so far, in the room that there is.
fn emptied(kept: Result<Vec<Pins>, Vec<Pins>>) -> Vec<Pins>
    ensures { result.items ≡ [] }
{
    let mut room = match kept {
        Ok(kept) => kept,
        Err(room) => room,
    };
    room.clear();
    room
}

// One more clock, if it finds its place; the room is kept.
fn extended(kept: Result<Vec<Pins>, Vec<Pins>>, pins: Pins) -> Result<Vec<Pins>, Vec<Pins>>
    ensures { Extended (result_ok kept) pins (result_ok result) }
{
    let mut kept = kept?;
    match kept.push(pins) {
        Ok(()) => Ok(kept),
        Err(_) => Err(kept),
    }
}

impl<D: Device> Recorder<D> {
    // Keeps nothing until the device is switched on.
    pub fn new(heap: Global, below: D) -> Recorder<D>
        ensures below { result.below ≡ below }
        ensures kept { result.pins ≡ None }
    {
        Recorder {
            below,
            heap,
            pins: Err(Vec::new(heap)),
        }
    }

    // The device below, and the pins of every clock since switch-on, if none was lost.
    pub fn into_parts(self) -> (D, Option<Vec<Pins>>)
        ensures below { result.0 ≡ self.below }
        ensures kept { result.1 ≡ self.pins }
        ensures led { IfSome result.1 (λ v. Led (D.Device.meaning self.below) v.items) }
    {
        let Recorder {
            below,
            heap: _,
            pins,
        } = self;
        (below, pins.ok())
    }

    // Where the pins that are kept lead, in full. Computes nothing.
    pub fn leads(&self)
        ensures { Kept (D.Device.meaning self.now.below) self.now.pins }
    {
        let _ = &self.pins;
    }
}

impl<D: Device> Device for Recorder<D> {
    ghost meaning = { below_meaning D.Device.meaning };

    ghost reachable = { below_reachable D.Device.reachable };

    fn switch_on(&mut self) {
        self.below.switch_on();
        let kept = replace(&mut self.pins, Err(Vec::new(self.heap)));
        self.pins = Ok(emptied(kept));
    }

    fn clock(&mut self, pins: Pins) -> (u8, u32) {
        let kept = replace(&mut self.pins, Err(Vec::new(self.heap)));
        self.pins = extended(kept, pins);
        self.below.clock(pins)
    }

    fn sheet(&self) -> Sheet {
        self.below.sheet()
    }

    fn fault(&self) -> Option<Fault> {
        self.below.fault()
    }

    fn word(&self, address: u32) -> u32 {
        self.below.word(address)
    }
}
