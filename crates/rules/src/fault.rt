ghost use Rattle.std.specs.Prelude.{◌≡◌};
ghost use Rattle.rules.specs.Rule.{number_of};

// The rule that a clock broke, in the order in which the rules are tried.
#[derive(Clone, Copy, PartialEq, Eq, Debug)]
pub enum Rule {
    // the clock count is at its end
    CountEnd,
    // a refresh mark is too old
    Retention,
    // a row is open too long
    RowTime,
    // power-up forbids the command
    PowerUp,
    // too soon after a refresh or a register load
    Recovery,
    // a row, A8 or a register code that there is not
    Operand,
    // the banks or the bursts do not allow the command
    Misplaced,
    // a distance is too short
    Distance,
    // data is written while the device drives the bus
    Contention,
}

impl Rule {
    // The fault's number. By name and no `From`: a bare conversion would not say which number.
    pub fn number(self) -> u8
        ensures { result ≡ number_of self }
    {
        match self {
            Rule::CountEnd => 11,
            Rule::Retention => 12,
            Rule::RowTime => 13,
            Rule::PowerUp => 14,
            Rule::Recovery => 15,
            Rule::Operand => 16,
            Rule::Misplaced => 17,
            Rule::Distance => 18,
            Rule::Contention => 19,
        }
    }
}

// The first rule that was broken since switch-on, and the clock that broke it.
#[derive(Clone, Copy, PartialEq, Eq, Debug)]
pub struct Fault {
    pub rule: Rule,
    pub clock: u64,
}
