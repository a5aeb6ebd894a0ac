ghost use Rattle.std.specs.Prelude.{◌≡◌};
ghost use Rattle.device.specs.Memory.{number_of};

// Why memory does not serve a sheet.
#[derive(Clone, Copy, PartialEq, Eq, Debug)]
pub enum MemoryError {
    // fewer words or bytes than the sheet's rows need
    Short,
}

impl MemoryError {
    // By name and no `From`: a bare conversion would not say which number.
    pub fn number(self) -> u8
        ensures { result ≡ number_of self }
    {
        match self {
            MemoryError::Short => 3,
        }
    }
}
