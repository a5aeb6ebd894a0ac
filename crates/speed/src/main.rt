// Replays a trace many times on a device, for measuring: args are the device, `words` or `planes`, and the rounds; the
// trace comes on standard input. Prints the clocks and a sum over all that was driven.
#![tactic(auto)]

mod kind;
mod rounds;

use anyhow::Context;
use cells::{Planes, Words};
use kind::{Kind, USAGE};
use rounds::{read_clocks, sum_on};
use std::env;

const ROWS: usize = 512;

fn run(rt: &HostRuntime) -> anyhow::Result<()> {
    let mut args = env::args(rt)?;
    let _program = args.next();
    let kind = args.next().context(USAGE)?;
    let rounds = args.next().context(USAGE)?;
    let rounds = rounds.as_str().parse::<u32>()?;
    let kind = Kind::from(kind.as_str());
    let clocks = read_clocks(rt)?;
    let sum = match kind {
        Kind::Words => {
            let mut memory = vec![in rt.alloc(); 0u32; 512 * ROWS]?;
            sum_on::<Words>(&mut memory, &clocks, rounds)
        }
        Kind::Planes => {
            let mut memory = vec![in rt.alloc(); 0u8; 2048 * ROWS]?;
            sum_on::<Planes>(&mut memory, &clocks, rounds)
        }
    };
    let count = clocks.pins.len();
    println!(rt; "{count} clocks, {rounds} rounds, sum {sum}")?;
    Ok(())
}

fn main(rt: HostRuntime) -> anyhow::Result<()> {
    run(&rt)
}
