// Two banks in one table.
ghost use Rattle.std.specs.Prelude.{◌≡◌, length};

use rules::Bank;

mod moves;

#[derive(Clone, Copy)]
pub struct Table {
    banks: [Bank; 2],
    ghost two: { length banks ≡ 2 },
}
