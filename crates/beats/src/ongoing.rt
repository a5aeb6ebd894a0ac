// The burst that is under way, if one is.
ghost use Rattle.std.specs.Prelude.{◌≡◌, true};
ghost use Rattle.beats.specs.Within.{within};

use rules::Burst;

mod moves;

// The beat that is due is one of the burst's.
#[derive(Clone, Copy)]
pub struct Ongoing {
    burst: Option<Burst>,
    ghost due: { within burst ≡ true },
}
