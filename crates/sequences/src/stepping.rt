// One command, quiet clocks, and a command at its time.
ghost use Rattle.std.specs.Prelude.{◌≡◌, ◌+◌, ◌^◌, ◌<◌, max, [], None};
ghost use Rattle.schedule.specs.Line.{silent};
ghost use Rattle.schedule.specs.Ledger.{Timely};
ghost use Rattle.schedule.specs.Fit.{Fit};
ghost use Rattle.schedule.specs.After.{after, stored, asked};
ghost use Rattle.orders.specs.Signals.{Encodable};
ghost use Rattle.sequences.specs.Gone.{Gone};
ghost use Rattle.sequences.specs.Times.{waited};

use crate::channel::Channel;
use device::Device;
use orders::{noted, pins_for};
use rules::Command;

impl<D: Device> Channel<D> {
    // A command that reads nothing, at the next clock, with dq on the data pins.
    pub fn give(&mut self, command: Command, dq: u32)
        requires timely { Timely self.old.ledger (self.old.ledger.clock + 1) }
        requires fit { Fit self.old.sheet (silent self.old.sheet.cl) self.old.ledger command }
        requires encodable { Encodable command }
        requires mute { asked self.old.sheet self.old.ledger command (D.Device.meaning self.old.device).cells ≡ None }
        ensures ledger { self.new.ledger ≡ after self.old.sheet dq command self.old.ledger }
        ensures gone { Gone D.Device.reachable D.Device.meaning self.old self.new [] (stored self.old.sheet self.old.ledger dq command (D.Device.meaning self.old.device).cells) }
    {
        let _ = self.device.clock(pins_for(command, dq));
        self.ledger = noted(self.ledger, self.sheet, command, dq);
    }

    // Quiet clocks, until the next is at t or later.
    pub fn wait_until(&mut self, t: u64)
        requires timely { Timely self.old.ledger t }
        ensures ledger { self.new.ledger ≡ waited t self.old.ledger }
        ensures gone { Gone D.Device.reachable D.Device.meaning self.old self.new [] (D.Device.meaning self.old.device).cells }
    {
        for _next in self.ledger.clock + 1..t {
            self.give(Command::Nop, 0);
        }
    }

    // A command that reads nothing, at t or at the next clock if that is later.
    pub fn give_at(&mut self, t: u64, command: Command, dq: u32)
        requires timely { Timely self.old.ledger (max (self.old.ledger.clock + 1) t) }
        requires fit { Fit self.old.sheet (silent self.old.sheet.cl) (waited t self.old.ledger) command }
        requires encodable { Encodable command }
        requires mute { asked self.old.sheet (waited t self.old.ledger) command (D.Device.meaning self.old.device).cells ≡ None }
        ensures ledger { self.new.ledger ≡ after self.old.sheet dq command (waited t self.old.ledger) }
        ensures gone { Gone D.Device.reachable D.Device.meaning self.old self.new [] (stored self.old.sheet (waited t self.old.ledger) dq command (D.Device.meaning self.old.device).cells) }
    {
        self.wait_until(t);
        self.give(command, dq);
    }
}
