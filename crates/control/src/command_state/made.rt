ghost use Rattle.std.specs.Prelude.{◌≡◌};
ghost use Rattle.rules.specs.State.{switched_on};

use super::Control;
use beats::Ongoing;
use judging::Table;
use lines::{Delay, Depth, Marks};
use rules::{Length, Mode, Past, Registers, Steps};
use sheet::Sheet;

const REGISTERS: Registers = Registers {
    mode: Mode {
        length: Length::One,
        interleaved: false,
    },
    mask: 0,
    colour: 0,
};

const STEPS: Steps = Steps {
    closed: false,
    loaded: false,
    refreshes: 0,
};

const PAST: Past = Past {
    refreshed: None,
    loaded: None,
    blocked: None,
};

impl Control {
    // Just switched on.
    pub fn new(sheet: Sheet) -> Control
        ensures { result ≡ switched_on sheet }
    {
        Control {
            sheet,
            clock: 0,
            table: Table::new(),
            registers: REGISTERS,
            ongoing: Ongoing::none(),
            reads: Delay::new(Depth::of_latency(&sheet), false),
            dqms: Delay::new(Depth::Two, 0),
            steps: STEPS,
            marks: Marks::new(),
            past: PAST,
            drove: 0,
            fault: None,
        }
    }

    // Switched on with the given sheet, from any state. Part by part: as a new value it clears 1,024 marks that nothing reads.
    pub fn switch_on(&mut self, sheet: Sheet)
        ensures { self.new ≡ switched_on sheet }
    {
        self.sheet = sheet;
        self.clock = 0;
        self.table = Table::new();
        self.registers = REGISTERS;
        self.ongoing = Ongoing::none();
        self.reads = Delay::new(Depth::of_latency(&sheet), false);
        self.dqms = Delay::new(Depth::Two, 0);
        self.steps = STEPS;
        self.marks.clear();
        self.past = PAST;
        self.drove = 0;
        self.fault = None;
    }
}
