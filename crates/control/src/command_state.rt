// All of a device but its cells and the words on their way out.
use beats::Ongoing;
use judging::Table;
use lines::{Delay, Marks};
use rules::{Fault, Past, Registers, Steps};
use sheet::Sheet;
use std::marker::Model;

mod asked;
mod clocked;
mod judged;
mod made;

#[derive(Drop)]
pub struct Control {
    sheet: Sheet,
    // how many clocks have been counted
    clock: u64,
    table: Table,
    registers: Registers,
    ongoing: Ongoing,
    // whether a read beat appears at each of the next clocks
    reads: Delay<bool>,
    dqms: Delay<u8>,
    steps: Steps,
    marks: Marks,
    past: Past,
    // the lanes driven at the last clock
    drove: u8,
    fault: Option<Fault>,
}

// Clauses see the command state of the rules.
impl Model for Control {
    ghost use Rattle.rules.specs.State.{State};

    ghost Value = { State };

    ghost use Rattle.control.specs.View.{state_of, Bounded};

    ghost view = { state_of };

    ghost invariant = { λ c. Bounded (state_of c) };
}
