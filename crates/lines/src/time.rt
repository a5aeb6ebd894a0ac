// Distances from events that may not have happened.
ghost use Rattle.std.specs.Prelude.{◌≡◌};
ghost use Rattle.rules.specs.State.{short, over};

// Under `least` clocks have passed from the event to clock t.
pub fn is_short(since: Option<u64>, least: u32, t: u64) -> bool
    ensures { result ≡ short since least t }
{
    since.is_some_and(|u| t < u || t - u < u64::from(least))
}

// Over `most` clocks have passed.
pub fn is_over(since: Option<u64>, most: u32, t: u64) -> bool
    ensures { result ≡ over since most t }
{
    since.is_some_and(|u| u < t && t - u > u64::from(most))
}
