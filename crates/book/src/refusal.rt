ghost use Rattle.std.specs.Prelude.{◌≡◌};
ghost use Rattle.book.specs.Refused.{number_of};

// Why a request is turned away, in the order in which it is tested.
#[derive(Clone, Copy, PartialEq, Eq, Debug)]
pub enum Refusal {
    // the first address is past the last one
    Address,
    // too few or too many words or clocks, or words past the last address
    Length,
    // the clock count is near its end
    Count,
}

impl Refusal {
    // By name and no `From`: a bare conversion would not say which number.
    pub fn number(self) -> u8
        ensures { result ≡ number_of self }
    {
        match self {
            Refusal::Address => 21,
            Refusal::Length => 22,
            Refusal::Count => 23,
        }
    }
}
