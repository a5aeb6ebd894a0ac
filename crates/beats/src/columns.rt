// The columns of a burst: the interleaved ones from tables, one row for each column in its block.
ghost use Rattle.std.specs.Prelude.{◌≡◌, ◌+◌, ◌-◌, ◌%◌, ◌<◌, ◌≤◌, true, bit_xor};
ghost use Rattle.rules.specs.Beat.{column};
ghost use Rattle.rules.specs.State.{beats_in};
ghost use Rattle.beats.specs.Table.{keeps_rule};

use rules::{Length, Mode};

const TWO: [[u8; 2]; 2] = [[0, 1], [1, 0]];

const FOUR: [[u8; 4]; 4] = [[0, 1, 2, 3], [1, 0, 3, 2], [2, 3, 0, 1], [3, 2, 1, 0]];

const EIGHT: [[u8; 8]; 8] = [
    [0, 1, 2, 3, 4, 5, 6, 7],
    [1, 0, 3, 2, 5, 4, 7, 6],
    [2, 3, 0, 1, 6, 7, 4, 5],
    [3, 2, 1, 0, 7, 6, 5, 4],
    [4, 5, 6, 7, 0, 1, 2, 3],
    [5, 4, 7, 6, 1, 0, 3, 2],
    [6, 7, 4, 5, 2, 3, 0, 1],
    [7, 6, 5, 4, 3, 2, 1, 0],
];

// Offset i of the row for column c, in a table that keeps the xor rule.
fn entry<const N: usize>(table: &[[u8; N]; N], c: usize, i: usize) -> u8
    requires rule { keeps_rule table.now N ≡ true }
    requires within { i < N }
    ensures is { result ≡ bit_xor (c % N) i }
    ensures small { result < N }
{
    table[c % N][i]
}

// The offset of beat i in the block of an interleaved burst from column c.
fn crossed(length: Length, c: usize, i: usize) -> u8
    requires { i < beats_in length }
    ensures is { result ≡ bit_xor (c % beats_in length) i }
    ensures small { result < beats_in length }
{
    match length {
        Length::One => 0,
        Length::Two => entry(&TWO, c, i),
        Length::Four => entry(&FOUR, c, i),
        Length::Eight => entry(&EIGHT, c, i),
    }
}

// The same of a sequential burst.
fn straight(length: Length, c: u8, i: u8) -> u8
    ensures is { result ≡ (c + i) % beats_in length }
    ensures small { result < beats_in length }
{
    ((u16::from(c) + u16::from(i)) % u16::from(length.beats())) as u8
}

// The first column of the block.
fn block_of(length: Length, c: u8) -> u8
    ensures is { result ≡ c - c % beats_in length }
    ensures room { result + beats_in length ≤ 256 }
{
    // By cases: as `c - c % length.beats()` (tried) both devices are 2 to 3 percent slower.
    match length {
        Length::One => c,
        Length::Two => c - c % 2,
        Length::Four => c - c % 4,
        Length::Eight => c - c % 8,
    }
}

// The column of beat i of a burst from column c.
pub fn column_of(mode: Mode, c: u8, i: u8) -> u8
    requires { i < beats_in mode.length }
    ensures { result ≡ column mode.interleaved (beats_in mode.length) c i }
{
    let offset = if mode.interleaved {
        crossed(mode.length, usize::from(c), usize::from(i))
    } else {
        straight(mode.length, c, i)
    };
    block_of(mode.length, c) + offset
}
