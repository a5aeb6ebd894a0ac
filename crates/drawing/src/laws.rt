ghost use Rattle.drawing.specs.Speed.{DrawnSoon};

// How soon words of one row are written and filled.
pub fn drawn_soon()
    ensures { DrawnSoon }
{}
