// The mask and the colour register.
ghost use Rattle.std.specs.Prelude.{◌≡◌, ◌+◌, ◌^◌, ◌<◌, ◌≤◌, max, []};
ghost use Rattle.schedule.specs.Ledger.{Timely};
ghost use Rattle.sequences.specs.Gone.{Gone};
ghost use Rattle.drawing.specs.Registers.{register, load_time, with_register};

use device::Device;
use rules::{Command, Register};
use schedule::Ledger;
use sequences::Channel;

// What a register holds.
fn held(ledger: Ledger, which: Register) -> u32
    ensures { result ≡ register ledger which }
{
    match which {
        Register::Mask => ledger.mask,
        Register::Colour => ledger.colour,
    }
}

// LSMR.
fn load_time<D: Device>(channel: &Channel<D>) -> u64
    ensures time { result ≡ load_time channel.now.sheet channel.now.ledger }
    ensures soon { result ≤ max channel.now.ledger.free (channel.now.ledger.clock + 7) }
{
    let spaced = channel.ledger.block + u64::from(channel.sheet.bwc);
    channel.ledger.free.max(spaced)
}

// A register holds the word: it is loaded where it held another.
pub fn load<D: Device>(channel: &mut Channel<D>, which: Register, word: u32)
    requires timely { Timely channel.old.ledger (channel.old.ledger.clock + 65) }
    ensures ledger { channel.new.ledger ≡ with_register channel.old.sheet which word channel.old.ledger }
    ensures held { register channel.new.ledger which ≡ word }
    ensures free { channel.new.ledger.free ≤ max channel.old.ledger.free (channel.new.ledger.clock + 2) }
    ensures few { channel.new.ledger.clock ≤ max channel.old.ledger.free (channel.old.ledger.clock + 7) }
    ensures gone { Gone D.Device.reachable D.Device.meaning channel.old channel.new [] (D.Device.meaning channel.old.device).cells }
{
    if held(channel.ledger, which) != word {
        let t = load_time(channel);
        let code = which.code();
        channel.give_at(t, Command::LoadSpecial { code }, word);
    }
}
