use crate::devices::on_four;
use crate::sessions::Session;
use sheet::{FIELDS, Sheet};
use std::alloc::Global;
use std::process::Abort;
use std::test::Fail;

// The -10 grade, with four rows, as all three.
pub const GRADE: [u64; FIELDS] = [3, 4, 3, 3, 6, 12000, 10, 3, 1, 1, 1024, 1600000, 100];

// The slowest sheet that is admitted.
const SLOWEST: [u64; FIELDS] = [3, 4, 15, 15, 31, 2048, 63, 15, 7, 7, 1024, 1049600, 65535];

// The fastest.
const FASTEST: [u64; FIELDS] = [1, 4, 1, 1, 1, 65535, 1, 1, 1, 1, 2, 2147483648, 0];

// Every answer is as due, and settling and priming took the other clocks.
fn check_session(rt: &impl Abort, seen: Session, sheet: Sheet, device: &str, part: &str) {
    let untold = sheet.pup + sheet.rp + sheet.rc + 3;
    assert_eq!(rt; seen.wrong, None, "{part}, {device}");
    assert!(rt; seen.fault.is_none(), "a fault: {part}, {device}");
    assert_eq!(rt;
        seen.untold,
        u64::from(untold),
        "clocks that were not told: {part}, {device}"
    );
}

fn check_device(rt: &impl Abort, seen: [Session; 4], sheet: Sheet, device: &str) {
    let [refused, prompt, drawn, lasting] = seen;
    check_session(rt, refused, sheet, device, "refused");
    check_session(rt, prompt, sheet, device, "prompt");
    check_session(rt, drawn, sheet, device, "drawn");
    check_session(rt, lasting, sheet, device, "lasting");
}

fn check_sheet(rt: &impl Abort, heap: Global, fields: [u64; FIELDS]) -> Result<(), Fail> {
    let Ok(sheet) = Sheet::admit(fields) else {
        return Err(Fail::new("no sheet"));
    };
    let [words, guarded_words, planes, guarded_planes] = on_four(heap, sheet)?;
    check_device(rt, words, sheet, "the word device");
    check_device(
        rt,
        guarded_words,
        sheet,
        "an interlock over the word device",
    );
    check_device(rt, planes, sheet, "the plane device");
    check_device(
        rt,
        guarded_planes,
        sheet,
        "an interlock over the plane device",
    );
    Ok(())
}

#[test]
fn serves_on_the_grade(rt: HostRuntime) -> Result<(), Fail> {
    check_sheet(&rt, rt.alloc(), GRADE)
}

#[test]
fn serves_on_the_slowest(rt: HostRuntime) -> Result<(), Fail> {
    check_sheet(&rt, rt.alloc(), SLOWEST)
}

#[test]
fn serves_on_the_fastest(rt: HostRuntime) -> Result<(), Fail> {
    check_sheet(&rt, rt.alloc(), FASTEST)
}
