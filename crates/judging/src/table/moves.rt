ghost use Rattle.std.specs.Prelude.{◌≡◌};
ghost use Rattle.rules.specs.State.{at, fresh_bank};
ghost use Rattle.rules.specs.Step.{next_bank};
ghost use Rattle.rules.specs.declared.pins.BankName.TheVariants.{A as A-bank, B as B-bank};
ghost use Rattle.judging.specs.Pair.{pair};

use super::Table;
use rules::{Bank, BankName, Beat, Command};

impl Table {
    // Both banks as at switch-on.
    pub fn new() -> Table
        ensures { pair result ≡ record { a = fresh_bank; b = fresh_bank } }
    {
        let bank = Bank {
            row: None,
            opened: None,
            closed: None,
            written: None,
        };
        Table {
            banks: [bank, bank],
        }
    }

    pub fn get(&self, name: BankName) -> Bank
        ensures { result ≡ at (pair self.now) name }
    {
        match name {
            BankName::A => self.banks[0],
            BankName::B => self.banks[1],
        }
    }

    // Both banks at a clock t that is no fault; each is lent to its own move.
    pub fn pass(&mut self, command: Command, t: u64, up: bool, dqm: u8, beat: Option<Beat>)
        ensures { pair self.new ≡ record { a = next_bank t up dqm beat command A-bank (pair self.old).a; b = next_bank t up dqm beat command B-bank (pair self.old).b } }
    {
        self.banks[0].pass(BankName::A, command, t, up, dqm, beat);
        self.banks[1].pass(BankName::B, command, t, up, dqm, beat);
    }
}
