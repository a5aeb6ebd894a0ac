ghost use Rattle.std.specs.Prelude.{◌≡◌, length as count};
ghost use Rattle.book.specs.Asks.{read as reading, write as writing, fill as filling, wait as waiting};
ghost use Rattle.book.specs.Book.{words_refusal, wait_refusal};
ghost use Rattle.book.specs.Answers.{Answered, IfAccepted, IfRefused};
ghost use Rattle.driver.specs.States.{Rest};
ghost use Rattle.driver.specs.Moves.{after_read, after_write, after_fill};

use crate::ready::Ready;
use accesses::fetch;
use book::Refusal;
use device::Device;
use drawing::{load, paint, store};
use pen::Pen;
use rules::Register;

// 2^62 less the count is below 2,000,000 from here on.
const LAST: u64 = (1 << 62) - 2_000_000;

impl<D: Device> Ready<D> {
    // That the driver is at rest, in full: its type says it truncated. Computes nothing.
    pub fn at_rest(&self)
        ensures { Rest D.Device.reachable D.Device.meaning self.now.channel }
    {
        let _ = &self.channel.ledger;
    }

    // Why a run of words is refused, if it is.
    fn refused(&self, address: u32, length: usize) -> Option<Refusal>
        ensures refusal { result ≡ words_refusal self.now.channel.sheet.rows self.now.channel.ledger.clock address length }
        ensures told { result ≡ words_refusal (D.Device.meaning self.now.channel.device).state.sheet.rows (D.Device.meaning self.now.channel.device).state.clock address length }
    {
        let channel = &self.channel;
        let words = channel.sheet.rows * 512;
        let clock = channel.ledger.clock;
        if address >= words {
            return Some(Refusal::Address);
        }
        if length == 0 || length > 256 || length > (words - address) as usize {
            return Some(Refusal::Length);
        }
        if clock > LAST {
            return Some(Refusal::Count);
        }
        None
    }

    // Why a wait is refused, if it is.
    fn wait_refused(&self, clocks: u32) -> Option<Refusal>
        ensures { result ≡ wait_refusal self.now.channel.ledger.clock clocks }
    {
        let channel = &self.channel;
        if clocks == 0 || clocks > 1_000_000 {
            return Some(Refusal::Length);
        }
        if channel.ledger.clock > LAST {
            return Some(Refusal::Count);
        }
        None
    }

    // Fills the buffer with the words from the address on; answers the clocks that passed.
    pub fn read(&mut self, address: u32, buffer: &mut [u32]) -> Result<u32, Refusal>
        ensures rest { Rest D.Device.reachable D.Device.meaning self.new.channel }
        ensures answered { Answered (D.Device.meaning self.old.channel.device) (D.Device.meaning self.new.channel.device) (reading address buffer.old) (reading address buffer.new) result }
        ensures ledger { IfAccepted result (self.new.channel.ledger ≡ after_read self.old.channel.sheet address (count buffer.old) self.old.channel.ledger) }
        ensures same { IfRefused result (self.new ≡ self.old) }
    {
        if let Some(refusal) = self.refused(address, buffer.len()) {
            self.at_rest();
            return Err(refusal);
        }
        let channel = &mut self.channel;
        let start = channel.ledger.clock;
        channel.tidy();
        fetch(channel, address, buffer);
        Ok((channel.ledger.clock - start) as u32)
    }

    // Stores the words from the address on, in the bits that the pen reaches; answers the clocks that passed.
    pub fn write(&mut self, pen: &Pen, address: u32, words: &[u32]) -> Result<u32, Refusal>
        ensures rest { Rest D.Device.reachable D.Device.meaning self.new.channel }
        ensures answered { Answered (D.Device.meaning self.old.channel.device) (D.Device.meaning self.new.channel.device) (writing pen.now address words.now) (writing pen.now address words.now) result }
        ensures ledger { IfAccepted result (self.new.channel.ledger ≡ after_write self.old.channel.sheet pen.now address (count words.now) self.old.channel.ledger) }
        ensures same { IfRefused result (self.new ≡ self.old) }
    {
        if let Some(refusal) = self.refused(address, words.len()) {
            self.at_rest();
            return Err(refusal);
        }
        let channel = &mut self.channel;
        let start = channel.ledger.clock;
        channel.tidy();
        load(channel, Register::Mask, pen.reach());
        store(channel, address, words);
        Ok((channel.ledger.clock - start) as u32)
    }

    // Puts the pen's colour in so many words from the address on, in the bits that the pen reaches; answers the clocks
    // that passed.
    pub fn fill(&mut self, pen: &Pen, address: u32, length: u32) -> Result<u32, Refusal>
        ensures rest { Rest D.Device.reachable D.Device.meaning self.new.channel }
        ensures answered { Answered (D.Device.meaning self.old.channel.device) (D.Device.meaning self.new.channel.device) (filling pen.now address length) (filling pen.now address length) result }
        ensures ledger { IfAccepted result (self.new.channel.ledger ≡ after_fill self.old.channel.sheet pen.now address length self.old.channel.ledger) }
        ensures same { IfRefused result (self.new ≡ self.old) }
    {
        if let Some(refusal) = self.refused(address, length as usize) {
            self.at_rest();
            return Err(refusal);
        }
        let channel = &mut self.channel;
        let start = channel.ledger.clock;
        channel.tidy();
        load(channel, Register::Mask, pen.reach());
        load(channel, Register::Colour, pen.colour);
        paint(channel, address, length);
        Ok((channel.ledger.clock - start) as u32)
    }

    // Lets at least so many clocks pass; answers how many did.
    pub fn wait(&mut self, clocks: u32) -> Result<u32, Refusal>
        ensures rest { Rest D.Device.reachable D.Device.meaning self.new.channel }
        ensures answered { Answered (D.Device.meaning self.old.channel.device) (D.Device.meaning self.new.channel.device) (waiting clocks) (waiting clocks) result }
        ensures same { IfRefused result (self.new ≡ self.old) }
    {
        if let Some(refusal) = self.wait_refused(clocks) {
            self.at_rest();
            return Err(refusal);
        }
        let channel = &mut self.channel;
        let start = channel.ledger.clock;
        channel.pass_until(start + u64::from(clocks));
        Ok((channel.ledger.clock - start) as u32)
    }
}
