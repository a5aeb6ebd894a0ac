ghost use Rattle.std.specs.Prelude.{◌≡◌, T};
ghost use Rattle.rules.specs.Meaning.{switch_on, run, outs};
ghost use Rattle.interlock.specs.Alike.{Alike};
ghost use Rattle.interlock.specs.Agree.{Matched};

use device::Device;
use rules::Pins;

// Switches both on and gives both the same clocks; answers whether they answered the same at each.
pub fn run_both<D: Device, E: Device>(d: &mut D, e: &mut E, pins: &[Pins]) -> bool
    ensures first { D.Device.meaning d.new ≡ run (switch_on (D.Device.meaning d.old)) pins.now }
    ensures first_reachable { D.Device.reachable d.new }
    ensures second { E.Device.meaning e.new ≡ run (switch_on (E.Device.meaning e.old)) pins.now }
    ensures second_reachable { E.Device.reachable e.new }
    ensures same { T result → outs (switch_on (D.Device.meaning d.old)) pins.now ≡ outs (switch_on (E.Device.meaning e.old)) pins.now }
    ensures told { outs (switch_on (D.Device.meaning d.old)) pins.now ≡ outs (switch_on (E.Device.meaning e.old)) pins.now → T result }
    ensures agree { Matched (D.Device.meaning d.old) (E.Device.meaning e.old) → T result × Alike (D.Device.meaning d.new) (E.Device.meaning e.new) }
{
    d.switch_on();
    e.switch_on();
    let mut agreed = true;
    for p in pins {
        let x = d.clock(*p);
        let y = e.clock(*p);
        agreed &= x == y;
    }
    agreed
}
