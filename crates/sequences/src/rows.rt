// Closing, refreshing and opening, each at its time.
ghost use Rattle.std.specs.Prelude.{◌≡◌, ◌+◌, ◌^◌, ◌<◌, ◌≤◌, [], Some, None};
ghost use Rattle.schedule.specs.Ledger.{Timely, track};
ghost use Rattle.sequences.specs.Gone.{Gone};
ghost use Rattle.sequences.specs.Times.{with_closed, with_both_closed, with_refresh, with_opened};

use crate::channel::Channel;
use device::Device;
use rules::{BankName, Command, Target};

impl<D: Device> Channel<D> {
    // PRE of one bank.
    pub fn close_row(&mut self, bank: BankName)
        requires timely { Timely self.old.ledger (self.old.ledger.clock + 65) }
        ensures ledger { self.new.ledger ≡ with_closed self.old.sheet bank self.old.ledger }
        ensures few { self.new.ledger.clock ≤ self.old.ledger.clock + 65 }
        ensures gone { Gone D.Device.reachable D.Device.meaning self.old self.new [] (D.Device.meaning self.old.device).cells }
    {
        let t = self.close_time(bank);
        self.give_at(t, Command::Precharge(Target::One(bank)), 0);
    }

    // PRE of both banks.
    pub fn close_both(&mut self)
        requires timely { Timely self.old.ledger (self.old.ledger.clock + 65) }
        ensures ledger { self.new.ledger ≡ with_both_closed self.old.sheet self.old.ledger }
        ensures few { self.new.ledger.clock ≤ self.old.ledger.clock + 65 }
        ensures gone { Gone D.Device.reachable D.Device.meaning self.old self.new [] (D.Device.meaning self.old.device).cells }
    {
        let t = self.close_both_time();
        self.give_at(t, Command::Precharge(Target::Both), 0);
    }

    // REF, with both banks idle.
    pub fn refresh(&mut self)
        requires timely { Timely self.old.ledger (self.old.ledger.clock + 65) }
        requires due { self.old.ledger.due ≤ self.old.ledger.clock }
        requires idle_a { self.old.ledger.a.row ≡ None }
        requires idle_b { self.old.ledger.b.row ≡ None }
        ensures ledger { self.new.ledger ≡ with_refresh self.old.sheet self.old.ledger }
        ensures few { self.new.ledger.clock ≤ self.old.ledger.clock + 65 }
        ensures gone { Gone D.Device.reachable D.Device.meaning self.old self.new [] (D.Device.meaning self.old.device).cells }
    {
        let t = self.refresh_time();
        self.give_at(t, Command::Refresh, 0);
    }

    // ACTM of a row of an idle bank.
    pub fn activate(&mut self, bank: BankName, row: u16)
        requires timely { Timely self.old.ledger (self.old.ledger.clock + 65) }
        requires inside { row < self.old.sheet.rows }
        requires idle { (track self.old.ledger bank).row ≡ None }
        ensures ledger { self.new.ledger ≡ with_opened self.old.sheet bank row self.old.ledger }
        ensures few { self.new.ledger.clock ≤ self.old.ledger.clock + 65 }
        ensures gone { Gone D.Device.reachable D.Device.meaning self.old self.new [] (D.Device.meaning self.old.device).cells }
    {
        let t = self.open_time(bank);
        self.give_at(
            t,
            Command::Activate {
                masked: true,
                bank,
                row,
            },
            0,
        );
    }
}
