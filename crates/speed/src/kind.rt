// How to call the program.
pub const USAGE: &str = "usage: speed words|planes ROUNDS < TRACE";

// A device, by the layout of its cells.
#[derive(Clone, Copy, PartialEq, Eq, Debug)]
pub enum Kind {
    Words,
    Planes,
}

impl From<&str> for Kind {
    ghost use Rattle.std.specs.Prelude.{◌≡◌};
    ghost use Rattle.speed.specs.Kind.{kind_of};

    ghost from_gives = { λ s k. k ≡ kind_of s.now };

    // Any word but `words` means the planes.
    fn from(word: &str) -> Kind {
        if word == "words" {
            Kind::Words
        } else {
            Kind::Planes
        }
    }
}
