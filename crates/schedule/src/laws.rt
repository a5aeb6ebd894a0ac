// Each function's contract is a law; it computes nothing.
ghost use Rattle.schedule.specs.Budget.{Budgets, KeepsCurrent};
ghost use Rattle.schedule.specs.Obeyed.{Obeys, Says};
ghost use Rattle.schedule.specs.Places.{Lies};
ghost use Rattle.schedule.specs.Rows.{RowsServed};
ghost use Rattle.schedule.specs.Spread.{Spreads};
ghost use Rattle.schedule.specs.Waking.{Primes, Settles, WakesByStep};

// A command that fits the ledger is no fault, and the ledger, the cells and the bus are as told.
pub fn commands_obeyed()
    ensures obeys { Obeys }
    ensures says { Says }
{}

// One command, quiet clocks, words read, words written and blocks filled, each as a stretch of clocks.
pub fn rows_served()
    ensures { RowsServed }
{}

// What words written and block writes in a row come to.
pub fn words_spread()
    ensures { Spreads }
{}

// From any state, switched on, settled and primed in at most 700 clocks, a device is at rest.
pub fn device_wakes()
    ensures settles { Settles }
    ensures primes { Primes 700 }
    ensures steps { WakesByStep }
{}

// How many clocks a driver has before it must refresh or close a row.
pub fn budgets_hold()
    ensures budgets { Budgets 700 324 }
    ensures current { KeepsCurrent }
{}

// Each address is one column of one row of one bank.
pub fn addresses_lie()
    ensures { Lies }
{}
