ghost use Rattle.rules.specs.Edge.{Edge};

// The rules at their edges, and one whole trace.
pub fn edges_stand()
    ensures { Edge }
{}
