ghost use Rattle.std.specs.Prelude.{◌≡◌, ◌+◌, ◌-◌, ◌<◌, ◌≤◌, length, if◌then◌else◌, nat_le, slice_set};
ghost use Rattle.rules.specs.declared.pins.Access.TheVariants.{Read};
ghost use Rattle.schedule.specs.After.{address};
ghost use Rattle.schedule.specs.Stretch.{at_clock, span};
ghost use Rattle.schedule.specs.Reading.{Readable, reading_command};
ghost use Rattle.orders.specs.Signals.{pins_of};
ghost use Rattle.sequences.specs.Gone.{Gone};
ghost use Rattle.accesses.specs.Rows.{kept_for, with_read};

use device::Device;
use orders::pins_for;
use rules::{Access, BankName, Command, Pins};
use sequences::Channel;

// Step j of a stretch that reads k words of a row.
fn reading_pins(bank: BankName, column: u8, k: usize, j: usize) -> Pins
    requires { column + k ≤ 256 }
    ensures { result ≡ pins_of (reading_command bank column k j) 0 }
{
    if j < k {
        let column = column + j as u8;
        pins_for(
            Command::Column {
                access: Access::Read,
                bank,
                a8: false,
                column,
            },
            0,
        )
    } else {
        pins_for(Command::Nop, 0)
    }
}

// The word of step j, if one can have come.
fn keep(buffer: &mut [u32], cl: usize, j: usize, word: u32)
    requires { j < length buffer.old + cl }
    ensures { buffer.new ≡ (if nat_le cl j then slice_set buffer.old (j - cl) word else buffer.old) }
{
    if cl <= j {
        buffer[j - cl] = word;
    }
}

// Words of an open row, from a column on: a clock for each, and then the latency.
pub fn read_row<D: Device>(channel: &mut Channel<D>, bank: BankName, column: u8, buffer: &mut [u32])
    requires readable { Readable channel.old.sheet (kept_for channel.old.sheet (length buffer.old) channel.old.ledger) bank column (length buffer.old) }
    ensures ledger { channel.new.ledger ≡ with_read channel.old.sheet (length buffer.old) channel.old.ledger }
    ensures words { buffer.new ≡ span (D.Device.meaning channel.old.device).cells (address channel.old.sheet channel.old.ledger bank column) (length buffer.old) }
    ensures gone { Gone D.Device.reachable D.Device.meaning channel.old channel.new buffer.new (D.Device.meaning channel.old.device).cells }
{
    let k = buffer.len();
    let cl = channel.sheet.cl as usize;
    channel.ledger.bus = channel.ledger.clock + (k + cl) as u64 + 2;
    // j counts clocks: at j a column is asked for, and the word of the column asked cl clocks ago comes.
    for j in 0..k + cl {
        let (_, word) = channel.device.clock(reading_pins(bank, column, k, j));
        channel.ledger.clock += 1;
        keep(buffer, cl, j, word);
    }
}
