ghost use Rattle.std.specs.Prelude.{◌≡◌, None};
ghost use Rattle.rules.specs.Beat.{begun, current, next_burst, burst_beat, beat_by};
ghost use Rattle.std.specs.Option.{is_some};

use super::Ongoing;
use crate::columns::column_of;
use rules::{Access, BankName, Beat, Burst, Command, Mode};

fn begin(mode: Mode, access: Access, bank: BankName, column: u8) -> Ongoing
    ensures { result.burst ≡ begun mode access bank column }
{
    let burst = match access {
        Access::Block => None,
        _ => Some(Burst {
            access,
            bank,
            from: column,
            next: 0,
            mode,
        }),
    };
    Ongoing { burst }
}

impl Ongoing {
    pub fn none() -> Ongoing
        ensures { result.burst ≡ None }
    {
        Ongoing { burst: None }
    }

    pub fn is_some(&self) -> bool
        ensures { result ≡ is_some self.now.burst }
    {
        self.burst.is_some()
    }

    // The burst whose beat is done at a clock with the given command.
    pub fn under(self, mode: Mode, command: Command) -> Ongoing
        ensures { result.burst ≡ current mode self.burst command }
    {
        match command {
            Command::Stop => Ongoing::none(),
            Command::Column {
                access,
                bank,
                a8: _,
                column,
            } => begin(mode, access, bank, column),
            Command::Precharge(target) => match self.burst {
                Some(u) if target.includes(u.bank) => Ongoing::none(),
                _ => self,
            },
            _ => self,
        }
    }

    // What is under way after that beat.
    pub fn after(self) -> Ongoing
        ensures { result.burst ≡ next_burst self.burst }
    {
        match self.burst {
            None => self,
            Some(u) => {
                if u.next < u.mode.length.beats() - 1 {
                    let next = u.next + 1;
                    Ongoing {
                        burst: Some(Burst { next, ..u }),
                    }
                } else {
                    Ongoing::none()
                }
            }
        }
    }

    fn burst_beat(self) -> Option<Beat>
        ensures { result ≡ burst_beat self.burst }
    {
        let u = self.burst?;
        Some(Beat {
            access: u.access,
            bank: u.bank,
            column: column_of(u.mode, u.from, u.next),
        })
    }

    // The beat of the clock, where this is the burst whose beat is done at it.
    pub fn beat(self, command: Command) -> Option<Beat>
        ensures { result ≡ beat_by command self.burst }
    {
        match command {
            Command::Column {
                access: Access::Block,
                bank,
                a8: _,
                column,
            } => Some(Beat {
                access: Access::Block,
                bank,
                column,
            }),
            _ => self.burst_beat(),
        }
    }
}
