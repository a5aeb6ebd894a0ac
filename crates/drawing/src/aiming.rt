ghost use Rattle.std.specs.Prelude.{◌≡◌, ◌+◌, ◌*◌, ◌%◌, ◌<◌, ◌≤◌, false, []};
ghost use Rattle.schedule.specs.Ledger.{Timely};
ghost use Rattle.schedule.specs.Fit.{Reachable};
ghost use Rattle.schedule.specs.After.{address as place_of};
ghost use Rattle.schedule.specs.Places.{bank_of};
ghost use Rattle.sequences.specs.Gone.{Gone};
ghost use Rattle.drawing.specs.Drawn.{with_aimed};

use accesses::locate;
use device::Device;
use rules::BankName;
use sequences::Channel;

// Opens the row of an address, and waits until data can be written to its columns; answers bank and column.
pub fn aim<D: Device>(channel: &mut Channel<D>, address: u32) -> (BankName, u8)
    requires inside { address < channel.old.sheet.rows * 512 }
    requires timely { Timely channel.old.ledger (channel.old.ledger.clock + 146) }
    ensures bank { result.0 ≡ bank_of channel.old.sheet.rows address }
    ensures column { result.1 ≡ address % 256 }
    ensures ledger { channel.new.ledger ≡ with_aimed channel.old.sheet address channel.old.ledger }
    ensures place { place_of channel.old.sheet channel.new.ledger result.0 result.1 ≡ address }
    ensures columns { Reachable channel.old.sheet channel.new.ledger result.0 false }
    ensures bus { channel.new.ledger.bus ≤ channel.new.ledger.clock + 1 }
    ensures mask { channel.new.ledger.mask ≡ channel.old.ledger.mask }
    ensures colour { channel.new.ledger.colour ≡ channel.old.ledger.colour }
    ensures few { channel.new.ledger.clock ≤ channel.old.ledger.clock + 145 }
    ensures gone { Gone D.Device.reachable D.Device.meaning channel.old channel.new [] (D.Device.meaning channel.old.device).cells }
{
    let (bank, row, column) = locate(channel.sheet.rows, address);
    channel.select(bank, row);
    channel.wait_until(channel.ledger.bus);
    (bank, column)
}
