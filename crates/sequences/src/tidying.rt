// Sequences that look first.
ghost use Rattle.std.specs.Prelude.{◌≡◌, ◌+◌, ◌^◌, ◌<◌, ◌≤◌, false, [], Some, None};
ghost use Rattle.schedule.specs.Ledger.{Timely, track};
ghost use Rattle.schedule.specs.Fit.{Reachable};
ghost use Rattle.schedule.specs.Budget.{DueSoon, Tidied};
ghost use Rattle.sequences.specs.Gone.{Gone};
ghost use Rattle.sequences.specs.Times.{opened_from, with_selected, caught_up, cleared, tidied};

use crate::channel::Channel;
use crate::times::is_untidy;
use device::Device;
use rules::BankName;

impl<D: Device> Channel<D> {
    // Opens a row; another row of its bank is closed first.
    pub fn open_row(&mut self, bank: BankName, row: u16)
        requires timely { Timely self.old.ledger (self.old.ledger.clock + 130) }
        requires inside { row < self.old.sheet.rows }
        ensures ledger { self.new.ledger ≡ opened_from self.old.sheet bank row (track self.old.ledger bank).row self.old.ledger }
        ensures row { (track self.new.ledger bank).row ≡ Some row }
        ensures few { self.new.ledger.clock ≤ self.old.ledger.clock + 130 }
        ensures gone { Gone D.Device.reachable D.Device.meaning self.old self.new [] (D.Device.meaning self.old.device).cells }
    {
        match self.track(bank).row {
            None => self.activate(bank, row),
            Some(open) if open == row => {}
            Some(_) => {
                self.close_row(bank);
                self.activate(bank, row);
            }
        }
    }

    // Opens a row, and waits until its columns can be reached.
    pub fn select(&mut self, bank: BankName, row: u16)
        requires timely { Timely self.old.ledger (self.old.ledger.clock + 145) }
        requires inside { row < self.old.sheet.rows }
        ensures ledger { self.new.ledger ≡ with_selected self.old.sheet bank row self.old.ledger }
        ensures row { (track self.new.ledger bank).row ≡ Some row }
        ensures columns { Reachable self.old.sheet self.new.ledger bank false }
        ensures few { self.new.ledger.clock ≤ self.old.ledger.clock + 144 }
        ensures gone { Gone D.Device.reachable D.Device.meaning self.old self.new [] (D.Device.meaning self.old.device).cells }
    {
        self.open_row(bank, row);
        let t = self.column_time(bank);
        self.wait_until(t);
    }

    // A refresh, if one is due, with both banks idle.
    pub fn catch_up(&mut self)
        requires timely { Timely self.old.ledger (self.old.ledger.clock + 65) }
        requires idle_a { self.old.ledger.a.row ≡ None }
        requires idle_b { self.old.ledger.b.row ≡ None }
        ensures ledger { self.new.ledger ≡ caught_up self.old.sheet self.old.ledger }
        ensures fresh { self.new.ledger.clock ≤ self.new.ledger.due }
        ensures idle_a { self.new.ledger.a.row ≡ None }
        ensures idle_b { self.new.ledger.b.row ≡ None }
        ensures few { self.new.ledger.clock ≤ self.old.ledger.clock + 65 }
        ensures gone { Gone D.Device.reachable D.Device.meaning self.old self.new [] (D.Device.meaning self.old.device).cells }
    {
        if self.ledger.due <= self.ledger.clock {
            self.refresh();
        }
    }

    // Closes both banks, and refreshes if that is due.
    pub fn clear(&mut self)
        requires soon { DueSoon self.old.ledger }
        requires counted { self.old.ledger.clock + 324 < 2 ^ 62 }
        ensures ledger { self.new.ledger ≡ cleared self.old.sheet self.old.ledger }
        ensures fresh { self.new.ledger.clock ≤ self.new.ledger.due }
        ensures idle_a { self.new.ledger.a.row ≡ None }
        ensures idle_b { self.new.ledger.b.row ≡ None }
        ensures few { self.new.ledger.clock ≤ self.old.ledger.clock + 80 }
        ensures gone { Gone D.Device.reachable D.Device.meaning self.old self.new [] (D.Device.meaning self.old.device).cells }
    {
        self.close_both();
        self.catch_up();
    }

    // At the start of a request: if a refresh is due or a row is old, both banks are closed, and what is due is done.
    pub fn tidy(&mut self)
        requires soon { DueSoon self.old.ledger }
        requires counted { self.old.ledger.clock + 324 < 2 ^ 62 }
        ensures ledger { self.new.ledger ≡ tidied self.old.sheet self.old.ledger }
        ensures tidied { Tidied self.new.ledger }
        ensures few { self.new.ledger.clock ≤ self.old.ledger.clock + 130 }
        ensures short { self.new.ledger.clock ≤ self.old.ledger.clock + 80 }
        ensures gone { Gone D.Device.reachable D.Device.meaning self.old self.new [] (D.Device.meaning self.old.device).cells }
    {
        if is_untidy(self.ledger) {
            self.clear();
        }
    }
}
