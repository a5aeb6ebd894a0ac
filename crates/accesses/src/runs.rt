// Runs of words from an address on.
ghost use Rattle.std.specs.Prelude.{◌≡◌, ◌+◌, ◌*◌, ◌%◌, ◌<◌, ◌≤◌, length};
ghost use Rattle.schedule.specs.Ledger.{Timely};
ghost use Rattle.schedule.specs.Places.{bank_of, row_of};
ghost use Rattle.schedule.specs.Stretch.{span};
ghost use Rattle.sequences.specs.Gone.{Gone};
ghost use Rattle.accesses.specs.Rows.{with_row_read, with_fetched};
ghost use Rattle.accesses.specs.Speed.{Soon};

use crate::reading::read_row;
use device::Device;
use rules::BankName;
use sequences::Channel;

// Where an address lies: bank, row and column.
pub fn locate(rows: u32, address: u32) -> (BankName, u16, u8)
    requires few { rows ≤ 512 }
    requires inside { address < rows * 512 }
    ensures bank { result.0 ≡ bank_of rows address }
    ensures row { result.1 ≡ row_of rows address }
    ensures column { result.2 ≡ address % 256 }
{
    let row = address / 256;
    let column = (address % 256) as u8;
    if row < rows {
        (BankName::A, row as u16, column)
    } else {
        (BankName::B, (row - rows) as u16, column)
    }
}

// Words of one row.
fn read_at<D: Device>(channel: &mut Channel<D>, address: u32, buffer: &mut [u32])
    requires inside { address < channel.old.sheet.rows * 512 }
    requires one_row { address % 256 + length buffer.old ≤ 256 }
    requires timely { Timely channel.old.ledger (channel.old.ledger.clock + (147 + length buffer.old)) }
    ensures ledger { channel.new.ledger ≡ with_row_read channel.old.sheet address (length buffer.old) channel.old.ledger }
    ensures words { buffer.new ≡ span (D.Device.meaning channel.old.device).cells address (length buffer.old) }
    ensures few { channel.new.ledger.clock ≤ channel.old.ledger.clock + (147 + length buffer.old) }
    ensures gone { Gone D.Device.reachable D.Device.meaning channel.old channel.new buffer.new (D.Device.meaning channel.old.device).cells }
{
    let (bank, row, column) = locate(channel.sheet.rows, address);
    channel.select(bank, row);
    read_row(channel, bank, column, buffer);
}

// At most 256 words, which lie in one row or in two.
pub fn fetch<D: Device>(channel: &mut Channel<D>, address: u32, buffer: &mut [u32])
    requires some { 1 ≤ length buffer.old }
    requires most { length buffer.old ≤ 256 }
    requires inside { address + length buffer.old ≤ channel.old.sheet.rows * 512 }
    requires timely { Timely channel.old.ledger (channel.old.ledger.clock + 550) }
    ensures ledger { channel.new.ledger ≡ with_fetched channel.old.sheet address (length buffer.old) channel.old.ledger }
    ensures words { buffer.new ≡ span (D.Device.meaning channel.old.device).cells address (length buffer.old) }
    ensures few { channel.new.ledger.clock ≤ channel.old.ledger.clock + 550 }
    ensures gone { Gone D.Device.reachable D.Device.meaning channel.old channel.new buffer.new (D.Device.meaning channel.old.device).cells }
{
    let room = 256 - (address % 256) as usize;
    if buffer.len() <= room {
        read_at(channel, address, buffer);
    } else {
        read_at(channel, address, &mut buffer[..room]);
        read_at(channel, address + room as u32, &mut buffer[room..]);
    }
}

// How soon words of one row come.
pub fn words_soon()
    ensures { Soon }
{}
