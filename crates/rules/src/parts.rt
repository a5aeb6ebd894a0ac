// How the plain parts of a device's state are asked, and what a clock that is no fault makes of them.
ghost use Rattle.std.specs.Prelude.{◌≡◌, Some};
ghost use Rattle.rules.specs.Pins.{other, quiet};
ghost use Rattle.rules.specs.State.{beats_in, ready};
ghost use Rattle.rules.specs.Beat.{closes, reads, reads_cell, writes, wrote};
ghost use Rattle.rules.specs.Faults.{listed_mode};
ghost use Rattle.rules.specs.Step.{coded, mode_of, code_of, register_of, is_refresh, next_registers, next_steps, next_past};

use crate::pins::{Access, BankName, Command, Target};
use crate::state::{Beat, Length, Mode, Past, Register, Registers, Steps};

impl BankName {
    pub fn other(self) -> BankName
        ensures { result ≡ other self }
    {
        match self {
            BankName::A => BankName::B,
            BankName::B => BankName::A,
        }
    }
}

impl Target {
    // A PRE of these banks closes this one.
    pub fn includes(self, name: BankName) -> bool
        ensures { result ≡ closes self name }
    {
        match self {
            Target::One(named) => named == name,
            Target::Both => true,
        }
    }
}

impl Command {
    pub fn is_quiet(self) -> bool
        ensures { result ≡ quiet self }
    {
        matches!(self, Command::Inhibit | Command::Nop | Command::Stop)
    }

    pub fn is_refresh(self) -> bool
        ensures { result ≡ is_refresh self }
    {
        matches!(self, Command::Refresh)
    }
}

impl Access {
    // It takes a cell.
    fn reads(self) -> bool
        ensures { result ≡ reads self }
    {
        matches!(self, Access::Read)
    }
}

impl Beat {
    // It takes a cell.
    pub fn reads(self) -> bool
        ensures { result ≡ reads_cell (Some self) }
    {
        self.access.reads()
    }

    pub fn writes(self) -> bool
        ensures { result ≡ writes (Some self) }
    {
        !self.reads()
    }

    // It writes to the bank, with a low DQM bit.
    pub fn writes_to(self, name: BankName, dqm: u8) -> bool
        ensures { result ≡ wrote name dqm (Some self) }
    {
        self.writes() && self.bank == name && dqm < 15
    }
}

impl Length {
    pub fn beats(self) -> u8
        ensures { result ≡ beats_in self }
    {
        match self {
            Length::One => 1,
            Length::Two => 2,
            Length::Four => 4,
            Length::Eight => 8,
        }
    }

    // By name and no `From`: other codes mean eight too, so none can be turned back.
    fn of_code(code: u16) -> Length
        ensures { result ≡ coded code }
    {
        match code {
            0 => Length::One,
            1 => Length::Two,
            2 => Length::Four,
            _ => Length::Eight,
        }
    }
}

impl Mode {
    // Whether LMR may bring the code to a part of latency cl.
    pub fn is_listed(code: u16, cl: u32) -> bool
        ensures { result ≡ listed_mode cl code }
    {
        code % 8 < 4 && u32::from(code / 16 % 8) == cl && code < 128
    }

    // The mode that LMR sets by a listed code. By name and no `From`, as `Length::of_code`.
    pub fn of_code(code: u16) -> Mode
        ensures { result ≡ mode_of code }
    {
        Mode {
            length: Length::of_code(code % 8),
            interleaved: code / 8 % 2 == 1,
        }
    }
}

impl Register {
    // The code by which LSMR loads it.
    pub fn code(self) -> u16
        ensures { result ≡ code_of self }
    {
        match self {
            Register::Mask => 0x20,
            Register::Colour => 0x40,
        }
    }

    // The register that LSMR loads by a code. An option and no `TryFrom`: code 0 loads none and is no error.
    pub fn of_code(code: u16) -> Option<Register>
        ensures { result ≡ register_of code }
    {
        match code {
            0x20 => Some(Register::Mask),
            0x40 => Some(Register::Colour),
            _ => None,
        }
    }
}

impl Registers {
    pub fn after(self, command: Command, dq: u32) -> Registers
        ensures { result ≡ next_registers dq self command }
    {
        match command {
            Command::LoadMode { code } => Registers {
                mode: Mode::of_code(code),
                ..self
            },
            Command::LoadSpecial { code } => match Register::of_code(code) {
                Some(Register::Mask) => Registers { mask: dq, ..self },
                Some(Register::Colour) => Registers { colour: dq, ..self },
                None => self,
            },
            _ => self,
        }
    }
}

impl Steps {
    // Power-up has ended.
    pub fn ended(self) -> bool
        ensures { result ≡ ready self }
    {
        self.loaded && self.refreshes >= 2
    }

    pub fn after(self, command: Command) -> Steps
        ensures { result ≡ next_steps self command }
    {
        match command {
            Command::Precharge(target) => Steps {
                closed: self.closed || target == Target::Both,
                ..self
            },
            Command::Refresh => Steps {
                refreshes: self.refreshes.saturating_add(1).min(2),
                ..self
            },
            Command::LoadMode { code: _ } => Steps {
                loaded: true,
                ..self
            },
            _ => self,
        }
    }
}

impl Past {
    pub fn after(self, command: Command, t: u64) -> Past
        ensures { result ≡ next_past t self command }
    {
        match command {
            Command::Column {
                access: Access::Block,
                ..
            } => Past {
                blocked: Some(t),
                ..self
            },
            Command::Refresh => Past {
                refreshed: Some(t),
                ..self
            },
            Command::LoadMode { code: _ } | Command::LoadSpecial { code: _ } => Past {
                loaded: Some(t),
                ..self
            },
            _ => self,
        }
    }
}
