ghost use Rattle.std.specs.Prelude.{◌≡◌};
ghost use Rattle.rules.specs.Words.{put};

// `old`, with the bits of `mask` from `new`.
pub fn merged(mask: u32, new: u32, old: u32) -> u32
    ensures { result ≡ put mask new old }
{
    old & !mask | new & mask
}
