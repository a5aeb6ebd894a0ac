// Judges a pin trace that standard input holds.
#![tactic(auto)]

mod answers;

use answers::answer;
use console::{exit_code, text_or_help};
use std::io::Write;
use std::process::ExitCode;

const HELP: &str =
    "judge: reads a pin trace on standard input and writes the verdict on standard output.

The trace runs on a device of at most 32 rows, just switched on, its cells all zero. For each
clock at which the device drives a lane there is a line: the clock, the lanes and the word, both
in hexadecimal. Then a line for each bank: idle, or active with its row, plain or masked. Then
the verdict: ok and the number of clocks, or fault, its number and its clock.
Of a text that is not judged only one line is written: refused, a number, and any place or line.
Fields are parted by tabs. The status is 0 for a verdict and for a refusal, and 1 where reading
or writing fails.
";

fn run(rt: &HostRuntime) -> anyhow::Result<()> {
    if let Some(text) = text_or_help(rt, HELP)? {
        let page = answer(rt.alloc(), text.as_slice())?;
        rt.stdout().write_all(page.as_slice())?;
    }
    Ok(())
}

fn main(rt: HostRuntime) -> ExitCode {
    let outcome = run(&rt);
    exit_code(&rt, "judge", outcome)
}
