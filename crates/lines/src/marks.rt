// The refresh marks, in a ring of n of 1,024 places.
ghost use Rattle.std.specs.Prelude.{◌≡◌, ◌≤◌, [], length, replicate};
ghost use Rattle.rules.specs.Delay.{passed};
ghost use Rattle.rules.specs.Faults.{oldest};
ghost use Rattle.rules.specs.Step.{next_marks};
ghost use Rattle.lines.specs.Ring.{turned};

use sheet::Sheet;
use std::marker::Model;

#[derive(Clone, Copy)]
enum Lap {
    // no mark yet
    Unset,
    // the places from the head on stand for the clock at which power-up ended, whatever they hold
    First(u64),
    // every place holds its mark
    Later,
}

// The head is the oldest mark's place. An array and a length, since a device takes no memory.
#[derive(Drop)]
pub struct Marks {
    items: [u64; 1024],
    n: usize,
    head: usize,
    lap: Lap,
}

// Clauses see the marks, oldest first.
impl Model for Marks {
    ghost use Rattle.std.specs.Prelude.{ℕ, ◌≡◌, ◌<◌, ◌≤◌, List, length};

    ghost Value = { List ℕ };

    ghost use Rattle.lines.specs.Ring.{marks};

    ghost view = { marks };

    ghost invariant = { λ m. (length m.items ≡ 1024) × (m.head < m.n) × (m.n ≤ 1024) };
}

impl Lap {
    // The lap after the ring's last place was written.
    fn turned(self) -> Lap
        ensures { result ≡ turned self }
    {
        match self {
            Lap::Unset => Lap::Unset,
            _ => Lap::Later,
        }
    }
}

impl Marks {
    pub fn new() -> Marks
        ensures { result ≡ [] }
    {
        Marks {
            items: [0; 1024],
            n: 1,
            head: 0,
            lap: Lap::Unset,
        }
    }

    pub fn clear(&mut self)
        ensures { self.new ≡ [] }
    {
        self.lap = Lap::Unset;
    }

    // All the sheet's n marks are at t.
    fn begin(&mut self, sheet: &Sheet, t: u64)
        ensures { self.new ≡ replicate sheet.now.n t }
    {
        self.n = sheet.n as usize;
        self.head = 0;
        self.lap = Lap::First(t);
    }

    pub fn oldest(&self) -> Option<u64>
        ensures is { result ≡ oldest self.now }
        ensures few { length self.now ≤ 1024 }
    {
        match self.lap {
            Lap::Unset => None,
            Lap::First(t) => Some(t),
            Lap::Later => Some(self.items[self.head]),
        }
    }

    // t takes the place of the oldest mark.
    fn push(&mut self, t: u64)
        ensures { self.new ≡ passed self.old t }
    {
        let head = self.head;
        self.items[head] = t;
        if head + 1 < self.n {
            self.head = head + 1;
        } else {
            self.head = 0;
            self.lap = self.lap.turned();
        }
    }

    // The marks at clock t: `was` says that power-up had ended before it, `will` that it has after it.
    pub fn pass(&mut self, was: bool, will: bool, refresh: bool, sheet: &Sheet, t: u64)
        ensures { self.new ≡ next_marks was will refresh sheet.now.n t self.old }
    {
        if was {
            if refresh {
                self.push(t);
            }
        } else if will {
            self.begin(sheet, t);
        }
    }
}
