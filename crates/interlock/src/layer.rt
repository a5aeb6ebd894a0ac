ghost use Rattle.std.specs.Prelude.{◌≡◌, ℕ, ◌^◌, ◌<◌};
ghost use Rattle.rules.specs.State.{switched_on};
ghost use Rattle.rules.specs.Meaning.{step, out, switch_on};
ghost use Rattle.control.specs.View.{Bounds};
ghost use Rattle.interlock.specs.Guard.{guarded, Guarded, Passes};

use control::Control;
use device::Device;
use rules::{Fault, Pins};
use sheet::Sheet;

// A layer over a device that judges each clock itself, and from its first fault on passes none down. That it agrees with
// the device below is a predicate (Guarded) and no ghost field (tried): between the two moves of a clock it does not hold.
#[derive(Drop)]
pub struct Interlock<D: Device> {
    below: D,
    control: Control,
}

impl<D: Device> Interlock<D> {
    // Switches the device below on.
    pub fn new(mut below: D) -> Interlock<D>
        ensures below { D.Device.meaning result.below ≡ switch_on (D.Device.meaning below) }
        ensures control { result.control ≡ switched_on (D.Device.meaning below).state.sheet }
        ensures reachable { Guarded D.Device.reachable D.Device.meaning result }
    {
        below.switch_on();
        let control = Control::new(below.sheet());
        Interlock { below, control }
    }

    // What the type keeps of its command state, for who holds a layer. Computes nothing.
    pub fn bounds(&self)
        ensures { Bounds self.now.control }
    {
        self.control.bounds();
    }

    // The device below, as the clocks passed down have left it.
    pub fn into_inner(self) -> D
        ensures { result ≡ self.below }
    {
        let Interlock { below, control: _ } = self;
        below
    }
}

impl<D: Device> Device for Interlock<D> {
    ghost meaning = { guarded D.Device.meaning };

    ghost reachable = { Guarded D.Device.reachable D.Device.meaning };

    fn switch_on(&mut self)
        ensures reachable { Guarded D.Device.reachable D.Device.meaning self.new }
        ensures after { guarded D.Device.meaning self.new ≡ switch_on (guarded D.Device.meaning self.old) }
        ensures words { (a : ℕ) → (guarded D.Device.meaning self.new).cells a < 2 ^ 32 }
        ensures below { D.Device.meaning self.new.below ≡ switch_on (D.Device.meaning self.old.below) }
    {
        self.below.switch_on();
        let sheet = self.below.sheet();
        self.control.switch_on(sheet);
    }

    fn clock(&mut self, pins: Pins) -> (u8, u32)
        requires { Guarded D.Device.reachable D.Device.meaning self.old }
        ensures reachable { Guarded D.Device.reachable D.Device.meaning self.new }
        ensures after { guarded D.Device.meaning self.new ≡ step (guarded D.Device.meaning self.old) pins }
        ensures answer { result ≡ out (guarded D.Device.meaning self.old) pins }
        ensures passes { Passes D.Device.meaning self.old self.new pins result }
    {
        match self.control.clock(pins) {
            Err(_) => (0, 0),
            Ok(_) => self.below.clock(pins),
        }
    }

    fn sheet(&self) -> Sheet {
        self.below.sheet()
    }

    fn fault(&self) -> Option<Fault> {
        self.control.fault()
    }

    fn word(&self, address: u32) -> u32 {
        self.below.word(address)
    }
}
