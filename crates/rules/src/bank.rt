ghost use Rattle.std.specs.Prelude.{◌≡◌};
ghost use Rattle.rules.specs.Step.{moved_bank, next_bank};

use crate::pins::{BankName, Command, Target};
use crate::state::{Bank, Beat, OpenRow};

impl Bank {
    // The bank under a command at clock t: it moves by its own row and the command together. `name` is its own name,
    // `up` says that power-up has not ended. Command and clock stand apart: each is as often asked without the other.
    pub fn apply(&mut self, name: BankName, command: Command, t: u64, up: bool)
        ensures { self.new ≡ moved_bank t up name command self.old }
    {
        match (self.row, command) {
            (_, Command::Activate { masked, bank, row }) => {
                if bank == name {
                    self.row = Some(OpenRow { row, masked });
                    self.opened = Some(t);
                }
            }
            (Some(_), Command::Precharge(target)) => {
                if target.includes(name) {
                    self.row = None;
                    self.closed = Some(t);
                }
            }
            (None, Command::Precharge(target)) => {
                if target == Target::Both && up {
                    self.closed = Some(t);
                }
            }
            _ => {}
        }
    }

    // The bank at a clock that is no fault: the command, and then the data written to it.
    pub fn pass(
        &mut self,
        name: BankName,
        command: Command,
        t: u64,
        up: bool,
        dqm: u8,
        beat: Option<Beat>,
    )
        ensures { self.new ≡ next_bank t up dqm beat command name self.old }
    {
        self.apply(name, command, t, up);
        if beat.is_some_and(|b| b.writes_to(name, dqm)) {
            self.written = Some(t);
        }
    }
}
