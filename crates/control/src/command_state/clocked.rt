ghost use Rattle.std.specs.Prelude.{◌≡◌, ◌+◌, ◌*◌, ◌^◌, ◌<◌, false, Some, None};
ghost use Rattle.rules.specs.Beat.{beat_of, current};
ghost use Rattle.rules.specs.Faults.{lanes_now, malformed};
ghost use Rattle.rules.specs.Step.{moved, failed, stepped};
ghost use Rattle.rules.specs.Cells.{work_of};
ghost use Rattle.beats.specs.Inside.{Inside};
ghost use Rattle.control.specs.Answer.{answered, StaysInside};
ghost use Rattle.control.specs.View.{Bounded};

use super::Control;
use crate::moved::Moved;
use beats::{Ongoing, work_in};
use rules::{Beat, Command, Fault, Pins, Rule, Work, decode};

impl Control {
    // What a beat does to the cells.
    fn work(&self, pins: Pins, beat: Option<Beat>) -> Work
        ensures is { result ≡ work_of self.now pins beat }
        ensures inside { Inside (self.now.sheet.rows * 512) result }
    {
        match beat {
            None => Work::Nothing,
            Some(beat) => {
                let row = self.table.get(beat.bank).row;
                work_in(&self.sheet, self.registers, pins, beat, row)
            }
        }
    }

    // A clock that is no fault, given its burst, its beat and the lanes that it drives.
    fn advance(
        &mut self,
        pins: Pins,
        command: Command,
        burst: Ongoing,
        beat: Option<Beat>,
        lanes: u8,
    )
        requires below { self.old.clock + 1 < 2 ^ 62 }
        requires formed { malformed self.old.sheet command ≡ false }
        requires burst { burst.burst ≡ current self.old.registers.mode self.old.burst command }
        requires beat { beat ≡ beat_of self.old.registers.mode self.old.burst command }
        requires lanes { lanes ≡ lanes_now self.old }
        ensures is { self.new ≡ moved self.old pins command }
        ensures bounded { Bounded self.new }
    {
        let t = self.clock + 1;
        let dqm = pins.dqm % 16;
        let was = self.steps.ended();
        let steps = self.steps.after(command);
        self.clock = t;
        self.table.pass(command, t, !was, dqm, beat);
        self.registers = self.registers.after(command, pins.dq);
        self.ongoing = burst.after();
        self.reads.push(beat.is_some_and(|b| b.reads()));
        self.dqms.push(dqm);
        self.steps = steps;
        self.marks
            .pass(was, steps.ended(), command.is_refresh(), &self.sheet, t);
        self.past = self.past.after(command, t);
        self.drove = lanes;
    }

    // A clock that is a fault.
    fn fail(&mut self, rule: Rule) -> Fault
        ensures is { result ≡ record { rule = rule; clock = self.old.clock + 1 } }
        ensures after { self.new ≡ failed self.old rule }
    {
        let fault = Fault {
            rule,
            clock: self.clock + 1,
        };
        self.fault = Some(fault);
        fault
    }

    // A clock: after a fault nothing, at a fault it is kept, else the move. Answers the fault, or what is to be done.
    pub fn clock(&mut self, pins: Pins) -> Result<Moved, Fault>
        ensures after { self.new ≡ stepped self.old pins }
        ensures answer { result ≡ answered self.old pins }
        ensures bounded { Bounded self.new }
        ensures inside { StaysInside (self.old.sheet.rows * 512) result }
    {
        if let Some(fault) = self.fault {
            return Err(fault);
        }
        let command = decode(pins);
        let burst = self.ongoing.under(self.registers.mode, command);
        let beat = burst.beat(command);
        let lanes = self.lanes();
        match self.judge(command, beat, lanes) {
            Some(rule) => Err(self.fail(rule)),
            None => {
                let work = self.work(pins, beat);
                self.advance(pins, command, burst, beat, lanes);
                Ok(Moved { work, lanes })
            }
        }
    }
}
