// Words written from an address on.
ghost use Rattle.std.specs.Prelude.{◌≡◌, ◌+◌, ◌*◌, ◌%◌, ◌<◌, ◌≤◌, false, [], length};
ghost use Rattle.schedule.specs.Ledger.{Timely};
ghost use Rattle.schedule.specs.Fit.{Reachable};
ghost use Rattle.schedule.specs.After.{address as place_of};
ghost use Rattle.schedule.specs.Writing.{all_written};
ghost use Rattle.sequences.specs.Gone.{Gone};
ghost use Rattle.drawing.specs.Drawn.{with_writes, with_row_written, with_stored};

use crate::aiming::aim;
use device::Device;
use rules::{Access, BankName, Command};
use sequences::Channel;

// Words to an open row, from a column on: a clock for each.
fn write_row<D: Device>(channel: &mut Channel<D>, bank: BankName, column: u8, words: &[u32])
    requires inside { column + length words.now ≤ 256 }
    requires columns { Reachable channel.old.sheet channel.old.ledger bank false }
    requires bus { channel.old.ledger.bus ≤ channel.old.ledger.clock + 1 }
    requires timely { Timely channel.old.ledger (channel.old.ledger.clock + length words.now) }
    ensures ledger { channel.new.ledger ≡ with_writes bank (length words.now) channel.old.ledger }
    ensures gone { Gone D.Device.reachable D.Device.meaning channel.old channel.new [] (all_written (place_of channel.old.sheet channel.old.ledger bank column) channel.old.ledger.mask words.now (D.Device.meaning channel.old.device).cells) }
{
    // opens the channel: the loop begins with what its type says
    let _ = &channel.ledger;
    for (j, word) in words.iter().enumerate() {
        let column = column + j as u8;
        channel.give(
            Command::Column {
                access: Access::Write,
                bank,
                a8: false,
                column,
            },
            *word,
        );
    }
}

// Words to one row.
fn write_at<D: Device>(channel: &mut Channel<D>, address: u32, words: &[u32])
    requires inside { address < channel.old.sheet.rows * 512 }
    requires one_row { address % 256 + length words.now ≤ 256 }
    requires timely { Timely channel.old.ledger (channel.old.ledger.clock + (147 + length words.now)) }
    ensures ledger { channel.new.ledger ≡ with_row_written channel.old.sheet address (length words.now) channel.old.ledger }
    ensures mask { channel.new.ledger.mask ≡ channel.old.ledger.mask }
    ensures few { channel.new.ledger.clock ≤ channel.old.ledger.clock + (147 + length words.now) }
    ensures gone { Gone D.Device.reachable D.Device.meaning channel.old channel.new [] (all_written address channel.old.ledger.mask words.now (D.Device.meaning channel.old.device).cells) }
{
    let (bank, column) = aim(channel, address);
    write_row(channel, bank, column, words);
}

// At most 256 words, which lie in one row or in two, in the bits of the mask register.
pub fn store<D: Device>(channel: &mut Channel<D>, address: u32, words: &[u32])
    requires some { 1 ≤ length words.now }
    requires most { length words.now ≤ 256 }
    requires inside { address + length words.now ≤ channel.old.sheet.rows * 512 }
    requires timely { Timely channel.old.ledger (channel.old.ledger.clock + 550) }
    ensures ledger { channel.new.ledger ≡ with_stored channel.old.sheet address (length words.now) channel.old.ledger }
    ensures few { channel.new.ledger.clock ≤ channel.old.ledger.clock + 550 }
    ensures gone { Gone D.Device.reachable D.Device.meaning channel.old channel.new [] (all_written address channel.old.ledger.mask words.now (D.Device.meaning channel.old.device).cells) }
{
    let room = 256 - (address % 256) as usize;
    if words.len() <= room {
        write_at(channel, address, words);
    } else {
        write_at(channel, address, &words[0..room]);
        write_at(channel, address + room as u32, &words[room..]);
    }
}
