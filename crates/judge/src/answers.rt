ghost use Rattle.std.specs.Prelude.{◌≡◌, IfOk};
ghost use Rattle.judge.specs.Answers.{answer_to};

use console::refusal_line;
use std::alloc::{AllocError, Global};
use verdict::judge;

// The program's planes hold 32 rows. Arrays of fixed length: the judge writes into lent memory, as for a host in C.
const PLANES: usize = 2048 * 32;

// Room for the longest trace: no text of the length that is allowed has more clocks than 3,121.
const OUTPUT: usize = 16 * 3121 + 64;

// What the program writes for a text.
pub fn answer(heap: Global, text: &[u8]) -> Result<Vec<u8>, AllocError>
    ensures { IfOk result (λ v. v.items ≡ answer_to text.now) }
{
    let mut planes = [0u8; PLANES];
    let mut page = [0u8; OUTPUT];
    match judge(text, &mut planes, &mut page) {
        Ok(written) => Vec::from_slice(heap, &page[0..written]),
        Err(refusal) => {
            let line = refusal_line(heap, refusal)?;
            Vec::from_slice(heap, line.as_bytes())
        }
    }
}
