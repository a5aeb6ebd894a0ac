// Laws over whole runs of clocks. Each function's contract is the law; it computes nothing.
ghost use Rattle.rules.specs.Laws.{RunsJoin, FaultStays, ClockCounts, FirstFault, CellsKept, MarksKept, BurstVisits};

// Two lists of clocks, one after the other, are one list.
pub fn runs_join()
    ensures { RunsJoin }
{}

// After a fault no clock changes anything or drives a lane, until switch-on.
pub fn fault_stays()
    ensures { FaultStays }
{}

// Each clock but one that is a fault is counted.
pub fn clock_counts()
    ensures { ClockCounts }
{}

// A run has a fault exactly where a clock breaks a rule, and it is that of the first such clock.
pub fn first_fault()
    ensures { FirstFault }
{}

// A run changes no word and no bit but those that its write beats and block writes reach.
pub fn cells_kept()
    ensures { CellsKept }
{}

// After power-up there are always n refresh marks, oldest first.
pub fn marks_kept()
    ensures { MarksKept }
{}

// A burst visits each column of its aligned block once.
pub fn burst_visits()
    ensures { BurstVisits }
{}
