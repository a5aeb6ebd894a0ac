ghost use Rattle.verdict.specs.Stands.{VerdictStands};

// The verdict is ok with the number of clocks exactly where no clock of the trace breaks a rule; else it names the first
// fault's number and clock. It computes nothing: its contract is the law.
pub fn verdict_stands()
    ensures { VerdictStands }
{}
