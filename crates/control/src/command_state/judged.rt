ghost use Rattle.std.specs.Prelude.{◌≡◌};
ghost use Rattle.rules.specs.Beat.{beat_of};
ghost use Rattle.rules.specs.Faults.{lanes_of, lanes_now, busy, found};

use super::Control;
use beats::low_lanes;
use judging::{
    is_clash, is_forbidden, is_malformed, is_open_long, is_out_of_place, is_too_close, is_too_soon,
};
use lines::is_over;
use rules::{Beat, Command, Rule};

// The clock count ends here.
const LAST: u64 = 1 << 62;

fn lanes_under(dqm: u8, reading: bool) -> u8
    ensures { result ≡ lanes_of dqm reading }
{
    if reading { low_lanes(dqm) } else { 0 }
}

impl Control {
    // The lanes driven at this clock, where it is no fault.
    pub(super) fn lanes(&self) -> u8
        ensures { result ≡ lanes_now self.now }
    {
        lanes_under(self.dqms.front(), self.reads.front())
    }

    fn is_busy(&self) -> bool
        ensures { result ≡ busy self.now }
    {
        self.ongoing.is_some() || self.reads.any()
    }

    // The first rule that this clock breaks, given its beat and the lanes that it would drive.
    pub(super) fn judge(&self, command: Command, beat: Option<Beat>, lanes: u8) -> Option<Rule>
        requires beat { beat ≡ beat_of self.now.registers.mode self.now.burst command }
        requires lanes { lanes ≡ lanes_now self.now }
        ensures { result ≡ found self.now command }
    {
        let t = self.clock + 1;
        if t == LAST {
            return Some(Rule::CountEnd);
        }
        if is_over(self.marks.oldest(), self.sheet.ret, t) {
            return Some(Rule::Retention);
        }
        if is_open_long(&self.table, self.sheet.rasmax, t) {
            return Some(Rule::RowTime);
        }
        if is_forbidden(self.steps, self.sheet.pup, t, command) {
            return Some(Rule::PowerUp);
        }
        if is_too_soon(self.past, self.sheet.rc, t, command) {
            return Some(Rule::Recovery);
        }
        if is_malformed(&self.sheet, command) {
            return Some(Rule::Operand);
        }
        if is_out_of_place(&self.table, self.is_busy(), command) {
            return Some(Rule::Misplaced);
        }
        if is_too_close(&self.sheet, &self.table, self.past.blocked, t, command) {
            return Some(Rule::Distance);
        }
        if is_clash(beat, lanes, self.drove) {
            return Some(Rule::Contention);
        }
        None
    }
}
