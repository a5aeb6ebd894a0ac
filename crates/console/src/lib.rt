// What the programs over traces share: their arguments and their input, the line of a refusal, and how they end.
#![tactic(auto)]

ghost use Rattle.std.specs.Prelude.{◌≡◌, IfOk, MatchResult, string_bytes};
ghost use Rattle.std.specs.Process.{exit_status};
ghost use Rattle.trace.specs.Answer.{answer};
ghost use Rattle.console.specs.Refused.{refusal_text};

use anyhow::anyhow;
use std::alloc::{AllocError, Global};
use std::io::Read;
use std::process::ExitCode;
use std::{env, io};
use trace::{LIMIT, Refusal};

// Standard input as far as it matters: one byte past the limit, and the text is refused whatever else follows.
pub fn read_text(rt: &HostRuntime) -> io::Result<Vec<u8>> {
    let mut text = Vec::new(rt.alloc());
    rt.stdin().take(LIMIT as u64 + 1).read_to_end(&mut text)?;
    Ok(text)
}

// The text that a program works on; none where its argument is --help, and then the help is printed. No clause: no contract
// can say what arguments and input hold.
pub fn text_or_help(rt: &HostRuntime, help: &str) -> anyhow::Result<Option<Vec<u8>>> {
    let mut args = env::args(rt)?;
    let _ = args.next();
    if let Some(word) = args.next() {
        if word.as_str() != "--help" {
            return Err(anyhow!("the only argument is --help"));
        }
        rt.print(help)?;
        return Ok(None);
    }
    Ok(Some(read_text(rt)?))
}

// How a program ends; an error is printed behind the program's name.
pub fn exit_code(rt: &HostRuntime, program: &str, outcome: anyhow::Result<()>) -> ExitCode
    ensures { MatchResult outcome (λ _. exit_status result ≡ 0) (λ _. exit_status result ≡ 1) }
{
    match outcome {
        Ok(()) => ExitCode::SUCCESS,
        Err(error) => {
            let _ = eprintln!(rt; "{program}: {error}");
            ExitCode::FAILURE
        }
    }
}

// The line of a text that is refused: the number, and the place or line if there is one.
#[tactic(auto, using(crate::proofs::Lines::line))]
pub fn refusal_line(heap: Global, refusal: Refusal) -> Result<String, AllocError>
    ensures { IfOk result (λ s. string_bytes s ≡ refusal_text (answer refusal)) }
{
    format!(in heap; "refused\t{refusal}\n")
}
