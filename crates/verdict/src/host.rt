// The judge for a host in C; the crate `verdict_c` exports it.
ghost use Rattle.std.specs.Prelude.{◌≡◌};
ghost use Rattle.verdict.specs.Judged.{judged_in, planes_after, output_after};
ghost use Rattle.verdict.specs.Plain.{plain};

use crate::judgement::judge;
use trace::Refusal;

// Plain numbers, for C; they are widened by `as`, as in the lines of the output.
#[repr(C)]
#[derive(Clone, Copy)]
pub struct Verdict {
    // 0, or the number of the refusal
    pub number: u32,
    // the place of the field or the number of the line, where there is one
    pub place: u32,
    // how many bytes of the output were written
    pub written: usize,
}

// The same as `judge`, in plain numbers.
pub fn sgram_judge(text: &[u8], planes: &mut [u8], out: &mut [u8]) -> Verdict
    ensures answer { result ≡ plain (judged_in text.now planes.old out.old) }
    ensures planes { planes.new ≡ planes_after (judged_in text.now planes.old out.old) planes.old }
    ensures out { out.new ≡ output_after (judged_in text.now planes.old out.old) out.old }
{
    match judge(text, planes, out) {
        Ok(written) => Verdict {
            number: 0,
            place: 0,
            written,
        },
        Err(refusal) => Verdict {
            number: refusal.number() as u32,
            place: refusal.place().unwrap_or(0) as u32,
            written: 0,
        },
    }
}
