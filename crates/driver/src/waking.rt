// From one state to the next.
ghost use Rattle.std.specs.Prelude.{◌≡◌, ◌+◌, ◌≤◌, [], replicate};
ghost use Rattle.rules.specs.Meaning.{switch_on, run};
ghost use Rattle.rules.specs.Cases.{nop};
ghost use Rattle.schedule.specs.Stretch.{Stretch};
ghost use Rattle.schedule.specs.Waking.{settled, primed, priming_pins};
ghost use Rattle.driver.specs.States.{IsSettled, Rest};

use crate::off::Off;
use crate::ready::Ready;
use crate::settled::Settled;
use device::Device;
use orders::pins_for;
use rules::{Command, Target};
use schedule::{Ledger, Track};
use sequences::Channel;
use sheet::Sheet;

// Quiet clocks.
fn pause<D: Device>(device: &mut D, clocks: u32)
    requires { D.Device.reachable device.old }
    ensures reachable { D.Device.reachable device.new }
    ensures after { D.Device.meaning device.new ≡ run (D.Device.meaning device.old) (replicate clocks nop) }
{
    for _i in 0..clocks {
        let _ = device.clock(pins_for(Command::Nop, 0));
    }
}

// PRE of both banks, LMR of length 1 at the sheet's latency, and two REF, each as soon as it may come.
fn wake<D: Device>(device: &mut D, sheet: Sheet)
    requires { D.Device.reachable device.old }
    ensures reachable { D.Device.reachable device.new }
    ensures after { D.Device.meaning device.new ≡ run (D.Device.meaning device.old) (priming_pins sheet) }
{
    let close = pins_for(Command::Precharge(Target::Both), 0);
    let load = pins_for(
        Command::LoadMode {
            code: (sheet.cl * 16) as u16,
        },
        0,
    );
    let refresh = pins_for(Command::Refresh, 0);
    let _ = device.clock(close);
    pause(device, sheet.rp - 1);
    let _ = device.clock(load);
    let _ = device.clock(pins_for(Command::Nop, 0));
    let _ = device.clock(refresh);
    pause(device, sheet.rc - 1);
    let _ = device.clock(refresh);
}

// What is known of a device that was just primed.
fn first_ledger(sheet: Sheet) -> Ledger
    ensures { result ≡ primed sheet (sheet.pup + 1) (sheet.pup + (sheet.rp + sheet.rc + 3)) }
{
    let clock = u64::from(sheet.pup + (sheet.rp + sheet.rc + 3));
    let idle = Track {
        row: None,
        opened: 0,
        closed: u64::from(sheet.pup + 1),
        written: 0,
    };
    Ledger {
        clock,
        due: clock + u64::from((sheet.ret - 1024) / sheet.n),
        free: clock + u64::from(sheet.rc),
        bus: 0,
        block: 0,
        mask: 0,
        colour: 0,
        a: idle,
        b: idle,
    }
}

impl<D: Device> Off<D> {
    // Switches the device on and lets its pause pass.
    pub fn settle(self) -> Settled<D>
        ensures after { D.Device.meaning result ≡ settled (D.Device.meaning self.device).state.sheet (D.Device.meaning self.device).cells }
        ensures stretch { Stretch (switch_on (D.Device.meaning self.device)) (D.Device.meaning result) (D.Device.meaning self.device).state.sheet.pup [] }
        ensures settled { IsSettled D.Device.reachable D.Device.meaning result }
    {
        let Off { mut device } = self;
        device.switch_on();
        let sheet = device.sheet();
        pause(&mut device, sheet.pup);
        Settled { device }
    }
}

impl<D: Device> Settled<D> {
    // Closes both banks, loads the mode and refreshes twice.
    pub fn prime(self) -> Ready<D>
        ensures stretch { Stretch (D.Device.meaning self) (D.Device.meaning result.channel.device) ((D.Device.meaning self).state.sheet.rp + (D.Device.meaning self).state.sheet.rc + 3) [] }
        ensures few { (D.Device.meaning self).state.sheet.rp + (D.Device.meaning self).state.sheet.rc + 3 ≤ 700 }
        ensures cells { (D.Device.meaning result.channel.device).cells ≡ (D.Device.meaning self).cells }
        ensures kept { (D.Device.meaning result.channel.device).state.sheet ≡ (D.Device.meaning self).state.sheet }
        ensures count { (D.Device.meaning result.channel.device).state.clock ≡ (D.Device.meaning self).state.sheet.pup + ((D.Device.meaning self).state.sheet.rp + (D.Device.meaning self).state.sheet.rc + 3) }
        ensures sheet { result.channel.sheet ≡ (D.Device.meaning self).state.sheet }
        ensures ledger { result.channel.ledger ≡ primed (D.Device.meaning self).state.sheet ((D.Device.meaning self).state.sheet.pup + 1) ((D.Device.meaning self).state.sheet.pup + ((D.Device.meaning self).state.sheet.rp + (D.Device.meaning self).state.sheet.rc + 3)) }
        ensures rest { Rest D.Device.reachable D.Device.meaning result.channel }
    {
        let Settled { mut device } = self;
        let sheet = device.sheet();
        wake(&mut device, sheet);
        Ready {
            channel: Channel {
                device,
                sheet,
                ledger: first_ledger(sheet),
            },
        }
    }
}

impl<D: Device> Ready<D> {
    // Gives the device back; a new driver can settle it again.
    pub fn release(self) -> D
        ensures device { result ≡ self.channel.device }
        ensures reachable { D.Device.reachable result }
    {
        let Ready { channel } = self;
        let Channel {
            device,
            sheet: _,
            ledger: _,
        } = channel;
        device
    }
}
