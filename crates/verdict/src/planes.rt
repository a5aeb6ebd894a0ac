ghost use Rattle.std.specs.Prelude.{◌≡◌, ◌≤◌, ◌++◌, length, drop, replicate};

// Sets the first bytes to zero.
pub fn clear(planes: &mut [u8], count: usize)
    requires { count ≤ length planes.old }
    ensures { planes.new ≡ replicate count 0 ++ drop count planes.old }
{
    planes[0..count].fill(0);
}
