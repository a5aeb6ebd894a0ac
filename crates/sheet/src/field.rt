ghost use Rattle.std.specs.Prelude.{◌≡◌};
ghost use Rattle.sheet.specs.Field.{place_of};

// The fields of a sheet, in the order of its text.
#[derive(Clone, Copy, PartialEq, Eq, Debug)]
pub enum Field {
    Cl,
    Rows,
    Rcd,
    Rp,
    Ras,
    Rasmax,
    Rc,
    Rrd,
    Wr,
    Bwc,
    N,
    Ret,
    Pup,
}

impl Field {
    // Its place in the order, from 1. By name and no `From`: a bare conversion would not say which number.
    pub fn place(self) -> u8
        ensures { result ≡ place_of self }
    {
        match self {
            Field::Cl => 1,
            Field::Rows => 2,
            Field::Rcd => 3,
            Field::Rp => 4,
            Field::Ras => 5,
            Field::Rasmax => 6,
            Field::Rc => 7,
            Field::Rrd => 8,
            Field::Wr => 9,
            Field::Bwc => 10,
            Field::N => 11,
            Field::Ret => 12,
            Field::Pup => 13,
        }
    }
}
