ghost use Rattle.std.specs.Prelude.{◌≡◌};
ghost use Rattle.sheet.specs.Admit.{answer, verdict, numbers, out_of};

use crate::field::Field;
use crate::sheet::Sheet;

// How many fields a sheet has; the order is the one in which the struct declares them.
pub const FIELDS: usize = 13;

// In the order of `Sheet::fields`, which `zip` puts beside it; a map of thirteen constants would be no plainer.
pub const NAMES: [&str; FIELDS] = [
    "cl", "rows", "rcd", "rp", "ras", "rasmax", "rc", "rrd", "wr", "bwc", "n", "ret", "pup",
];

#[derive(Clone, Copy, PartialEq, Eq, Debug)]
pub enum SheetError {
    // the first field out of range
    OutOfRange(Field),
    // ret is below 1,024 × n + 1,024
    RoundTooLong,
}

// Whether x is below low or above high.
fn outside(x: u64, low: u64, high: u64) -> bool
    ensures { result ≡ out_of x (low, high) }
{
    x < low || high < x
}

impl Sheet {
    // The sheet of thirteen numbers as they were read, or why there is none.
    pub fn admit(fields: [u64; FIELDS]) -> Result<Sheet, SheetError>
        ensures { answer result ≡ verdict fields }
    {
        let [
            cl,
            rows,
            rcd,
            rp,
            ras,
            rasmax,
            rc,
            rrd,
            wr,
            bwc,
            n,
            ret,
            pup,
        ] = fields;
        if outside(cl, 1, 3) {
            return Err(SheetError::OutOfRange(Field::Cl));
        }
        if outside(rows, 0, 512) {
            return Err(SheetError::OutOfRange(Field::Rows));
        }
        if outside(rcd, 1, 15) {
            return Err(SheetError::OutOfRange(Field::Rcd));
        }
        if outside(rp, 1, 15) {
            return Err(SheetError::OutOfRange(Field::Rp));
        }
        if outside(ras, 1, 31) {
            return Err(SheetError::OutOfRange(Field::Ras));
        }
        if outside(rasmax, 2048, 65535) {
            return Err(SheetError::OutOfRange(Field::Rasmax));
        }
        if outside(rc, 1, 63) {
            return Err(SheetError::OutOfRange(Field::Rc));
        }
        if outside(rrd, 1, 15) {
            return Err(SheetError::OutOfRange(Field::Rrd));
        }
        if outside(wr, 1, 7) {
            return Err(SheetError::OutOfRange(Field::Wr));
        }
        if outside(bwc, 1, 7) {
            return Err(SheetError::OutOfRange(Field::Bwc));
        }
        if outside(n, 2, 1024) {
            return Err(SheetError::OutOfRange(Field::N));
        }
        if outside(ret, 0, 2147483648) {
            return Err(SheetError::OutOfRange(Field::Ret));
        }
        if outside(pup, 0, 65535) {
            return Err(SheetError::OutOfRange(Field::Pup));
        }
        if ret < 1024 * n + 1024 {
            return Err(SheetError::RoundTooLong);
        }
        // By `as`: the ranges just tested fit, and `TryFrom` would have an error that cannot come.
        Ok(Sheet {
            cl: cl as u32,
            rows: rows as u32,
            rcd: rcd as u32,
            rp: rp as u32,
            ras: ras as u32,
            rasmax: rasmax as u32,
            rc: rc as u32,
            rrd: rrd as u32,
            wr: wr as u32,
            bwc: bwc as u32,
            n: n as u32,
            ret: ret as u32,
            pup: pup as u32,
        })
    }

    // The numbers in their order.
    pub fn fields(&self) -> [u32; FIELDS]
        ensures { result ≡ numbers self.now }
    {
        [
            self.cl,
            self.rows,
            self.rcd,
            self.rp,
            self.ras,
            self.rasmax,
            self.rc,
            self.rrd,
            self.wr,
            self.bwc,
            self.n,
            self.ret,
            self.pup,
        ]
    }
}
