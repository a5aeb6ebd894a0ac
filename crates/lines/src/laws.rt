ghost use Rattle.lines.specs.Line.{LineDelays};

// What enters a line leaves it after as many clocks as the line is long, in order.
pub fn line_delays<T>()
    ensures { LineDelays T }
{}
