// The colour register's word in words from an address on, by block writes.
ghost use Rattle.std.specs.Prelude.{◌≡◌, ◌+◌, ◌*◌, ◌%◌, ◌<◌, ◌≤◌, false, []};
ghost use Rattle.schedule.specs.Ledger.{Timely};
ghost use Rattle.schedule.specs.Fit.{Reachable};
ghost use Rattle.schedule.specs.After.{address as place_of};
ghost use Rattle.schedule.specs.Spread.{spread, columns};
ghost use Rattle.sequences.specs.Gone.{Gone};
ghost use Rattle.drawing.specs.Drawn.{with_blocks, blocks, with_row_filled, with_filled};

use crate::aiming::aim;
use device::Device;
use rules::{Access, BankName, Command};
use sequences::Channel;

// The columns from lo up to hi of a block, on all four lanes.
fn columns(lo: u32, hi: u32) -> u32
    requires order { lo ≤ hi }
    requires most { hi ≤ 8 }
    ensures { result ≡ columns lo hi }
{
    ((1 << hi) - (1 << lo)) * 0x0101_0101
}

// n words of an open row, from a column on: block writes, each as soon as it may come.
fn fill_row<D: Device>(channel: &mut Channel<D>, bank: BankName, column: u8, n: u32)
    requires inside { column + n ≤ 256 }
    requires columns { Reachable channel.old.sheet channel.old.ledger bank false }
    requires bus { channel.old.ledger.bus ≤ channel.old.ledger.clock + 1 }
    requires timely { Timely channel.old.ledger (channel.old.ledger.clock + 7 * blocks column n) }
    ensures ledger { channel.new.ledger ≡ with_blocks channel.old.sheet bank (blocks column n) channel.old.ledger }
    ensures gone { Gone D.Device.reachable D.Device.meaning channel.old channel.new [] (spread (D.Device.meaning channel.old.device).cells (place_of channel.old.sheet channel.old.ledger bank column) n channel.old.ledger.mask (λ _. channel.old.ledger.colour)) }
{
    let first = u32::from(column) % 8;
    let spacing = u64::from(channel.sheet.bwc);
    // i is the block, counted from that of the first word.
    for i in 0..(first + n + 7) / 8 {
        let low = first.saturating_sub(8 * i);
        let high = (first + n - 8 * i).min(8);
        let t = channel.ledger.block + spacing;
        let column = (u32::from(column) - first + 8 * i) as u8;
        channel.give_at(
            t,
            Command::Column {
                access: Access::Block,
                bank,
                a8: false,
                column,
            },
            columns(low, high),
        );
    }
}

// Words of one row.
fn fill_at<D: Device>(channel: &mut Channel<D>, address: u32, n: u32)
    requires inside { address < channel.old.sheet.rows * 512 }
    requires one_row { address % 256 + n ≤ 256 }
    requires timely { Timely channel.old.ledger (channel.old.ledger.clock + (147 + 7 * blocks (address % 256) n)) }
    ensures ledger { channel.new.ledger ≡ with_row_filled channel.old.sheet address n channel.old.ledger }
    ensures mask { channel.new.ledger.mask ≡ channel.old.ledger.mask }
    ensures colour { channel.new.ledger.colour ≡ channel.old.ledger.colour }
    ensures few { channel.new.ledger.clock ≤ channel.old.ledger.clock + (147 + 7 * blocks (address % 256) n) }
    ensures gone { Gone D.Device.reachable D.Device.meaning channel.old channel.new [] (spread (D.Device.meaning channel.old.device).cells address n channel.old.ledger.mask (λ _. channel.old.ledger.colour)) }
{
    let (bank, column) = aim(channel, address);
    fill_row(channel, bank, column, n);
}

// At most 256 words, which lie in one row or in two, in the bits of the mask register.
pub fn paint<D: Device>(channel: &mut Channel<D>, address: u32, n: u32)
    requires some { 1 ≤ n }
    requires most { n ≤ 256 }
    requires inside { address + n ≤ channel.old.sheet.rows * 512 }
    requires timely { Timely channel.old.ledger (channel.old.ledger.clock + 532) }
    ensures ledger { channel.new.ledger ≡ with_filled channel.old.sheet address n channel.old.ledger }
    ensures few { channel.new.ledger.clock ≤ channel.old.ledger.clock + 532 }
    ensures gone { Gone D.Device.reachable D.Device.meaning channel.old channel.new [] (spread (D.Device.meaning channel.old.device).cells address n channel.old.ledger.mask (λ _. channel.old.ledger.colour)) }
{
    let room = 256 - address % 256;
    if n <= room {
        fill_at(channel, address, n);
    } else {
        fill_at(channel, address, room);
        fill_at(channel, address + room, n - room);
    }
}
