use crate::pairs::{First, side_by_side};
use cells::Words;
use device::{CellDevice, Device};
use recorder::Recorder;
use rules::Pins;
use sheet::Sheet;
use std::alloc::Global;
use std::test::Fail;
use trace::Clocks;

const SMALL: [u64; 13] = [1, 4, 1, 1, 1, 2048, 2, 1, 1, 1, 4, 5120, 0];

// Power-up with bursts of length 4, interleaved.
const POWER_UP: &[u8] =
    b"LLHLL\t0\t100\t00000000\nLLLLL\t0\t01A\t00000000\nLHHHL\t0\t000\t00000000\nLLLHL\t0\t000\t00000000\nLHHHL\t0\t000\t00000000\nLLLHL\t0\t000\t00000000\nLHHHL\t0\t000\t00000000\n";

// A masked row of bank B: mask and colour loaded, a burst of four words from column 5 under DQM 8, a block write.
const DRAWN: &[u8] =
    b"LLHLL\t0\t100\t00000000\nLLLLL\t0\t01A\t00000000\nLHHHL\t0\t000\t00000000\nLLLHL\t0\t000\t00000000\nLHHHL\t0\t000\t00000000\nLLLHL\t0\t000\t00000000\nLHHHL\t0\t000\t00000000\nLLLLH\t0\t020\t00FFFF0F\nLHHHL\t0\t000\t00000000\nLLLLH\t0\t040\tA1B2C3D4\nLHHHL\t0\t000\t00000000\nLLHHH\t0\t202\t00000000\nLHLLL\t8\t205\t12345678\nLHHHL\t0\t000\t9ABCDEF0\nLHHHL\t4\t000\t0F1E2D3C\nLHHHL\t0\t000\tFFFFFFFF\nLHLLH\t1\t210\t03000003\nLHLHL\t0\t205\t00000000\nLHHHL\t0\t000\t00000000\nLHHHL\t2\t000\t00000000\nLHHHL\t0\t000\t00000000\nLHHHL\t0\t000\t00000000\n";

fn clocks(heap: Global, lines: &[u8]) -> Result<Vec<Pins>, Fail> {
    let clocks = Clocks::read(lines).ok().ok_or("no clocks")?;
    Ok(clocks.collect(heap)?)
}

#[test]
fn both_draw_the_same(rt: HostRuntime) -> Result<(), Fail> {
    let pins = clocks(rt.alloc(), DRAWN)?;
    let seen = side_by_side(rt.alloc(), First::Plain, SMALL, pins.as_slice(), 1541)?.ok_or(
        "no sheet",
    )?;
    assert!(rt; seen.agreed);
    assert!(rt; seen.alike);
    assert!(rt; seen.fault.is_none());
    assert_eq!(rt; seen.word, 0x0034_5608);
    Ok(())
}

#[test]
fn both_fail_at_the_same_clock(rt: HostRuntime) -> Result<(), Fail> {
    let mut pins = clocks(rt.alloc(), POWER_UP)?;
    let more = clocks(
        rt.alloc(),
        b"LHLHL\t0\t005\t00000000\nLHHHL\t0\t000\t00000000\n",
    )?;
    pins.extend_from_slice(more.as_slice())?;
    let seen = side_by_side(rt.alloc(), First::Plain, SMALL, pins.as_slice(), 0)?.ok_or(
        "no sheet",
    )?;
    assert!(rt; seen.agreed);
    assert!(rt; seen.alike);
    let fault = seen.fault.ok_or("no fault")?;
    assert_eq!(rt; fault.rule.number(), 17);
    assert_eq!(rt; fault.clock, 8);
    Ok(())
}

#[test]
fn an_interlock_shows_the_same(rt: HostRuntime) -> Result<(), Fail> {
    let pins = clocks(rt.alloc(), DRAWN)?;
    let seen = side_by_side(rt.alloc(), First::Guarded, SMALL, pins.as_slice(), 1541)?.ok_or(
        "no sheet",
    )?;
    assert!(rt; seen.agreed);
    assert!(rt; seen.alike);
    assert_eq!(rt; seen.word, 0x0034_5608);
    Ok(())
}

// Nothing before switch-on, and each clock from then on.
#[test]
fn a_recorder_keeps_the_clocks(rt: HostRuntime) -> Result<(), Fail> {
    let pins = clocks(rt.alloc(), POWER_UP)?;
    let sheet = Sheet::admit(SMALL).ok().ok_or("no sheet")?;
    let mut words = vec![in rt.alloc(); 0u32; 4096]?;
    let device: CellDevice<'_, Words> = CellDevice::new(&mut words, sheet);
    let mut recorder = Recorder::new(rt.alloc(), device);
    for clock in &pins {
        recorder.clock(*clock);
    }
    let (device, before) = recorder.into_parts();
    assert!(rt; before.is_none());
    let mut recorder = Recorder::new(rt.alloc(), device);
    recorder.switch_on();
    for clock in &pins {
        recorder.clock(*clock);
    }
    let (_, since) = recorder.into_parts();
    let since = since.ok_or("a clock was lost")?;
    assert_eq!(rt; since.len(), 7);
    let second = since.get(1).ok_or("no second clock")?;
    assert_eq!(rt; second.address, 0x01A);
    Ok(())
}
