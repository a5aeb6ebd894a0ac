// A delay line for elements of every kind.
ghost use Rattle.std.specs.Prelude.{◌≡◌, replicate};
ghost use Rattle.rules.specs.Delay.{leaving, passed, any_in};
ghost use Rattle.lines.specs.Line.{line, clocks};

use sheet::Sheet;

// How many clocks a line is long.
#[derive(Clone, Copy)]
pub enum Depth {
    One,
    Two,
    Three,
}

impl Depth {
    // The sheet's read latency. A name and no From, which would not say which of the sheet's numbers it takes.
    pub fn of_latency(sheet: &Sheet) -> Depth
        ensures { clocks result ≡ sheet.now.cl }
    {
        match sheet.cl {
            1 => Depth::One,
            2 => Depth::Two,
            _ => Depth::Three,
        }
    }
}

// `first` leaves next; what lies past the depth is not looked at. Three fields, since a device takes no memory.
#[derive(Clone, Copy)]
pub struct Delay<T> {
    depth: Depth,
    first: T,
    second: T,
    third: T,
}

impl<T: Copy> Delay<T> {
    pub fn new(depth: Depth, empty: T) -> Delay<T>
        ensures { line result ≡ replicate (clocks depth) empty }
    {
        Delay {
            depth,
            first: empty,
            second: empty,
            third: empty,
        }
    }

    // What leaves at this clock.
    pub fn front(&self) -> T
        ensures { (d : T) → result ≡ leaving d (line self.now) }
    {
        let Delay { first, .. } = *self;
        first
    }

    // A clock: the front leaves and x enters.
    pub fn push(&mut self, x: T)
        ensures { line self.new ≡ passed (line self.old) x }
    {
        match self.depth {
            Depth::One => self.first = x,
            Depth::Two => {
                self.first = self.second;
                self.second = x;
            }
            Depth::Three => {
                self.first = self.second;
                self.second = self.third;
                self.third = x;
            }
        }
    }
}

impl Delay<bool> {
    // Whether any element is true.
    pub fn any(&self) -> bool
        ensures { result ≡ any_in (line self.now) }
    {
        match self.depth {
            Depth::One => self.first,
            Depth::Two => self.first || self.second,
            Depth::Three => self.first || self.second || self.third,
        }
    }
}
