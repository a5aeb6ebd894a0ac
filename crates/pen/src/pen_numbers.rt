ghost use Rattle.std.specs.Prelude.{◌≡◌};
ghost use Rattle.pen.specs.Reach.{reach};

use beats::lane_bits;

// Of `lanes` only the low four bits count. A bit is reached if its lane and its mask bit are 1.
#[derive(Clone, Copy)]
pub struct Pen {
    pub lanes: u8,
    pub mask: u32,
    pub colour: u32,
}

impl Pen {
    // The bits of a word that the pen reaches.
    pub fn reach(&self) -> u32
        ensures { result ≡ reach self.now }
    {
        self.mask & lane_bits(self.lanes % 16)
    }
}
