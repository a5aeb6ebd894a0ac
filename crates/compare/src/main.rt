// Runs a pin trace on both devices, and on an interlock over each.
#![tactic(auto)]

mod report;

use console::{exit_code, refusal_line, text_or_help};
use report::{Report, compared, verdict_line};
use rules::Pins;
use std::process::ExitCode;
use trace::lines;

const HELP: &str =
    "compare: reads a pin trace on standard input, runs it on the word device, on the plane device and
on an interlock over each, and writes on standard output: the number of clocks, the verdict of
each (ok and the clocks, or fault, its number and its clock), and whether all four are alike: in
rows, cells and fault, and in what they drove. A text that is refused gives one line: refused, a
number, and any place or line. Fields are parted by tabs.
";

fn print_report(rt: &HostRuntime, report: &Report, clocks: usize) -> anyhow::Result<()> {
    println!(rt; "clocks\t{clocks}")?;
    let verdicts = [
        ("words", report.words),
        ("planes", report.planes),
        ("interlock over words", report.over_words),
        ("interlock over planes", report.over_planes),
    ];
    for (name, fault) in verdicts {
        let line = verdict_line(rt.alloc(), name, fault, clocks)?;
        println!(rt; "{line}")?;
    }
    if report.alike {
        println!(rt; "alike")?;
    } else {
        println!(rt; "not alike")?;
    }
    Ok(())
}

fn run(rt: &HostRuntime) -> anyhow::Result<()> {
    let Some(text) = text_or_help(rt, HELP)? else {
        return Ok(());
    };
    match lines(text.as_slice()) {
        Err(refusal) => {
            let line = refusal_line(rt.alloc(), refusal)?;
            rt.print(line.as_str())?;
        }
        Ok(trace) => {
            let sheet = trace.sheet;
            let pins: Vec<Pins> = trace.clocks().collect(rt.alloc())?;
            let report = compared(rt.alloc(), sheet, pins.as_slice())?;
            print_report(rt, &report, pins.len())?;
        }
    }
    Ok(())
}

fn main(rt: HostRuntime) -> ExitCode {
    let outcome = run(&rt);
    exit_code(&rt, "compare", outcome)
}
