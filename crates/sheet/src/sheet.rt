ghost use Rattle.std.specs.Prelude.{◌+◌, ◌*◌, ◌≤◌};

// In clocks, but for `rows` and `n`. Whoever holds a sheet knows its ranges, so nothing tests them again.
#[derive(Clone, Copy)]
pub struct Sheet {
    // read latency
    pub cl: u32,
    // rows of each bank
    pub rows: u32,
    // row opened to column command
    pub rcd: u32,
    // row closed to next opening
    pub rp: u32,
    // least time from opening to closing
    pub ras: u32,
    // most time a row is open
    pub rasmax: u32,
    // opening to opening in one bank; refresh to next command
    pub rc: u32,
    // opening in one bank to opening in the other
    pub rrd: u32,
    // last data written to closing
    pub wr: u32,
    // block write to next column command
    pub bwc: u32,
    // refreshes in a round of all rows
    pub n: u32,
    // clocks within which a round must come
    pub ret: u32,
    // pause after switch-on
    pub pup: u32,
    ghost cl_range: { (1 ≤ cl) × (cl ≤ 3) },
    ghost rows_range: { rows ≤ 512 },
    ghost rcd_range: { (1 ≤ rcd) × (rcd ≤ 15) },
    ghost rp_range: { (1 ≤ rp) × (rp ≤ 15) },
    ghost ras_range: { (1 ≤ ras) × (ras ≤ 31) },
    ghost rasmax_range: { (2048 ≤ rasmax) × (rasmax ≤ 65535) },
    ghost rc_range: { (1 ≤ rc) × (rc ≤ 63) },
    ghost rrd_range: { (1 ≤ rrd) × (rrd ≤ 15) },
    ghost wr_range: { (1 ≤ wr) × (wr ≤ 7) },
    ghost bwc_range: { (1 ≤ bwc) × (bwc ≤ 7) },
    ghost n_range: { (2 ≤ n) × (n ≤ 1024) },
    ghost ret_range: { ret ≤ 2147483648 },
    ghost pup_range: { pup ≤ 65535 },
    ghost round: { 1024 * n + 1024 ≤ ret },
}
