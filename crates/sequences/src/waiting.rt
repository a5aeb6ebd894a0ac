// Long waits.
ghost use Rattle.std.specs.Prelude.{◌≡◌, ◌+◌, ◌^◌, ◌<◌, ◌≤◌, max, []};
ghost use Rattle.schedule.specs.Budget.{DueSoon};
ghost use Rattle.sequences.specs.Gone.{Gone};

use crate::channel::Channel;
use device::Device;

impl<D: Device> Channel<D> {
    // Closes both banks, and lets clocks pass until the count is at `end`, refreshing as due.
    pub fn pass_until(&mut self, end: u64)
        requires soon { DueSoon self.old.ledger }
        requires counted { self.old.ledger.clock + 324 < 2 ^ 62 }
        requires early { end + 324 < 2 ^ 62 }
        ensures reached { end ≤ self.new.ledger.clock }
        ensures few { self.new.ledger.clock ≤ max (self.old.ledger.clock + 130) (end + 65) }
        ensures soon { DueSoon self.new.ledger }
        ensures gone { Gone D.Device.reachable D.Device.meaning self.old self.new [] (D.Device.meaning self.old.device).cells }
    {
        self.clear();
        while self.ledger.clock < end {
            let next = self.ledger.due.min(end);
            self.wait_until(next + 1);
            self.catch_up();
        }
    }
}
