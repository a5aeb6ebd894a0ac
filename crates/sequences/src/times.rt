// The first clock at which each command may come, from the driver's own numbers.
ghost use Rattle.std.specs.Prelude.{◌≡◌, ◌+◌, ◌^◌, ◌<◌, ◌≤◌, max};
ghost use Rattle.schedule.specs.Ledger.{track};
ghost use Rattle.sequences.specs.Gone.{Stands};
ghost use Rattle.sequences.specs.Times.{spent, close_time, close_both_time, refresh_time, open_time, column_time, old, untidy};

use crate::channel::Channel;
use device::Device;
use rules::BankName;
use schedule::{Ledger, Track};

// An open row was opened over 1,024 clocks before t.
fn is_old(track: Track, t: u64) -> bool
    requires { track.opened < 2 ^ 62 }
    ensures { result ≡ old track.row track.opened t }
{
    track.row.is_some() && track.opened + 1024 < t
}

// A refresh is due, or a row is old.
pub(crate) fn is_untidy(ledger: Ledger) -> bool
    requires a { ledger.a.opened < 2 ^ 62 }
    requires b { ledger.b.opened < 2 ^ 62 }
    ensures { result ≡ untidy ledger }
{
    ledger.due <= ledger.clock || is_old(ledger.a, ledger.clock) || is_old(ledger.b, ledger.clock)
}

impl<D: Device> Channel<D> {
    // What is known of one bank, and true of the device.
    pub(crate) fn track(&self, bank: BankName) -> Track
        ensures track { result ≡ track self.now.ledger bank }
        ensures stands { Stands D.Device.reachable D.Device.meaning self.now }
    {
        match bank {
            BankName::A => self.ledger.a,
            BankName::B => self.ledger.b,
        }
    }

    // From this clock on a bank's row may be closed.
    fn spent(&self, bank: BankName) -> u64
        ensures time { result ≡ spent self.now.sheet (track self.now.ledger bank) }
        ensures soon { result ≤ self.now.ledger.clock + 65 }
    {
        let track = self.track(bank);
        let opened = track.opened + u64::from(self.sheet.ras);
        opened.max(track.written + u64::from(self.sheet.wr))
    }

    // PRE of one bank.
    pub(crate) fn close_time(&self, bank: BankName) -> u64
        ensures time { result ≡ close_time self.now.sheet bank self.now.ledger }
        ensures soon { result ≤ self.now.ledger.clock + 65 }
    {
        self.ledger.free.max(self.spent(bank))
    }

    // PRE of both banks.
    pub(crate) fn close_both_time(&self) -> u64
        ensures time { result ≡ close_both_time self.now.sheet self.now.ledger }
        ensures soon { result ≤ self.now.ledger.clock + 65 }
    {
        let both = self.spent(BankName::A).max(self.spent(BankName::B));
        self.ledger.free.max(both)
    }

    // REF.
    pub(crate) fn refresh_time(&self) -> u64
        ensures time { result ≡ refresh_time self.now.sheet self.now.ledger }
        ensures soon { result ≤ self.now.ledger.clock + 65 }
    {
        let ledger = self.ledger;
        let closed = ledger.a.closed.max(ledger.b.closed) + u64::from(self.sheet.rp);
        let opened = ledger.a.opened.max(ledger.b.opened) + u64::from(self.sheet.rc);
        ledger.free.max(closed.max(opened))
    }

    // ACTM.
    pub(crate) fn open_time(&self, bank: BankName) -> u64
        ensures time { result ≡ open_time self.now.sheet bank self.now.ledger }
        ensures soon { result ≤ self.now.ledger.clock + 65 }
    {
        let own = self.track(bank);
        let other = self.track(bank.other());
        let closed = self.ledger.free.max(own.closed + u64::from(self.sheet.rp));
        let opened = own.opened + u64::from(self.sheet.rc);
        closed.max(opened.max(other.opened + u64::from(self.sheet.rrd)))
    }

    // RD, WR or BW in the open row.
    pub(crate) fn column_time(&self, bank: BankName) -> u64
        ensures time { result ≡ column_time self.now.sheet bank self.now.ledger }
        ensures soon { result ≤ max self.now.ledger.free (self.now.ledger.clock + 15) }
    {
        let opened = self.track(bank).opened + u64::from(self.sheet.rcd);
        let column = opened.max(self.ledger.block + u64::from(self.sheet.bwc));
        self.ledger.free.max(column)
    }
}
