ghost use Rattle.std.specs.Prelude.{◌≡◌, ℕ, ◌^◌, ◌<◌};
ghost use Rattle.rules.specs.Meaning.{Meaning, step, out, switch_on, word_at};

use rules::{Fault, Pins};
use sheet::Sheet;

pub trait Device {
    // what the device is, by the pin rules
    ghost meaning: { Self → Meaning };

    // the states that switch-on and clocks can leave
    ghost reachable: { Self → Type 0 };

    // From any state. Every cell holds a word of 32 bits.
    fn switch_on(&mut self)
        ensures reachable { reachable self.new }
        ensures after { meaning self.new ≡ switch_on (meaning self.old) }
        ensures words { (a : ℕ) → (meaning self.new).cells a < 2 ^ 32 };

    // The lanes driven at this clock, and the word, zero in the lanes that are not.
    fn clock(&mut self, pins: Pins) -> (u8, u32)
        requires { reachable self.old }
        ensures reachable { reachable self.new }
        ensures after { meaning self.new ≡ step (meaning self.old) pins }
        ensures answer { result ≡ out (meaning self.old) pins };

    fn sheet(&self) -> Sheet
        ensures { result ≡ (meaning self.now).state.sheet };

    // The first fault since switch-on.
    fn fault(&self) -> Option<Fault>
        ensures { result ≡ (meaning self.now).state.fault };

    // The word at an address, zero past the last one.
    fn word(&self, address: u32) -> u32
        ensures { result ≡ word_at (meaning self.now) address };
}
