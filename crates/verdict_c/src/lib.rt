// The judge's call for a host in C, as a static library.
#![tactic(auto)]

ghost use Rattle.std.specs.Prelude.{◌≡◌};
ghost use Rattle.verdict.specs.Judged.{judged_in, planes_after, output_after};
ghost use Rattle.verdict.specs.Plain.{plain};

use verdict::Verdict;

// What `include/sgram_judge.h` declares.
#[unsafe(no_mangle)]
pub extern "C" fn sgram_judge(text: &[u8], planes: &mut [u8], out: &mut [u8]) -> Verdict
    ensures answer { result ≡ plain (judged_in text.now planes.old out.old) }
    ensures planes { planes.new ≡ planes_after (judged_in text.now planes.old out.old) planes.old }
    ensures out { out.new ≡ output_after (judged_in text.now planes.old out.old) out.old }
{
    verdict::sgram_judge(text, planes, out)
}
