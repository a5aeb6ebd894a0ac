ghost use Rattle.std.specs.Prelude.{◌≡◌, T};
ghost use Rattle.interlock.specs.Alike.{Alike};

use device::Device;

// Whether rows, cells and fault agree. Asks for no more words once two differ.
pub fn alike<D: Device, E: Device>(d: &D, e: &E) -> bool
    ensures same { T result → Alike (D.Device.meaning d.now) (E.Device.meaning e.now) }
    ensures told { Alike (D.Device.meaning d.now) (E.Device.meaning e.now) → T result }
{
    let rows = d.sheet().rows;
    rows == e.sheet().rows
        && d.fault() == e.fault()
        && (0..rows * 512).all(|address| d.word(address) == e.word(address))
}
