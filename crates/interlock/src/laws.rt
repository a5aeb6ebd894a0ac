ghost use Rattle.interlock.specs.Agree.{DevicesAgree};

// Two devices that are switched on with equal sheets and equal cells answer equal pins alike, and are alike after every
// list of clocks. The contract is the law; the function computes nothing.
pub fn devices_agree()
    ensures { DevicesAgree }
{}
