ghost use Rattle.std.specs.Prelude.{◌≡◌};

use crate::pen_numbers::Pen;

// A pen that is borrowed with other numbers; at the stroke's end, on every way out, the old ones are back.
pub struct Stroke<'a> {
    pen: &'a mut Pen,
    old: Pen,
}

impl Drop for Stroke<'_> {
    fn drop(self)
        ensures { self.exit.0.now ≡ self.entry.old }
    {
        *self.pen = self.old;
        let Stroke { pen: _, old: _ } = self;
    }
}

impl<'a> Stroke<'a> {
    pub fn new(pen: &'a mut Pen, numbers: Pen) -> Stroke<'a>
        ensures pen { result.pen.now ≡ numbers }
        ensures old { result.old ≡ pen.old }
        ensures lender { result.pen.ghost_name ≡ pen.entry.ghost_name }
    {
        let old = *pen;
        *pen = numbers;
        Stroke { pen, old }
    }

    // The pen to draw with while the stroke stands.
    pub fn pen(&self) -> &Pen
        ensures { result.now ≡ self.entry.now.pen.now }
    {
        &*self.pen
    }

    // Ends the stroke, and tells that the old numbers are back.
    pub fn end(self)
        ensures { self.exit.0.now ≡ self.entry.old }
    {}
}
