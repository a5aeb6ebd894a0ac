// Lists a pin trace that standard input holds: its sheet, then its commands clock by clock.
#![tactic(auto)]

mod page;
mod words;

use console::{exit_code, text_or_help};
use page::listing;
use std::io::Write;
use std::process::ExitCode;

const HELP: &str = "listing: reads a pin trace on standard input and lists it on standard output.

First a line for each field of the sheet: its name and its value. Then a line for each
clock: its number, the command with its operands, DQM and DQ in hexadecimal. Of a text
that is no trace only one line is written: refused, a number, and any place or line.
Fields are parted by tabs.
";

fn run(rt: &HostRuntime) -> anyhow::Result<()> {
    if let Some(text) = text_or_help(rt, HELP)? {
        let page = listing(rt.alloc(), text.as_slice())?;
        rt.stdout().write_all(page.as_bytes())?;
    }
    Ok(())
}

fn main(rt: HostRuntime) -> ExitCode {
    let outcome = run(&rt);
    exit_code(&rt, "listing", outcome)
}
