use anyhow::anyhow;
use cells::Layout;
use device::{CellDevice, Device};
use rules::Pins;
use sheet::Sheet;
use std::io::Read;
use trace::lines;

#[derive(Drop)]
pub struct Clocks {
    pub sheet: Sheet,
    pub pins: Vec<Pins>,
}

// The clocks of the trace on standard input, which is read to its end, so that no writer is cut off.
pub fn read_clocks(rt: &HostRuntime) -> anyhow::Result<Clocks> {
    let mut text = Vec::new(rt.alloc());
    rt.stdin().read_to_end(&mut text)?;
    let Ok(trace) = lines(text.as_slice()) else {
        return Err(anyhow!("the trace is refused"));
    };
    Ok(Clocks {
        sheet: trace.sheet,
        pins: trace.clocks().collect(rt.alloc())?,
    })
}

fn play<D: Device>(device: &mut D, pins: &[Pins]) -> u32
    requires { D.Device.reachable device.old }
    ensures { D.Device.reachable device.new }
{
    let mut sum = 0u32;
    for p in pins {
        let (lanes, word) = device.clock(*p);
        sum = sum.rotate_left(1) ^ word ^ u32::from(lanes);
    }
    sum
}

// Each round begins with switch-on.
fn play_rounds<D: Device>(device: &mut D, pins: &[Pins], rounds: u32) -> u32 {
    let mut sum = 0u32;
    for _ in 0..rounds {
        device.switch_on();
        sum ^= play(device, pins);
    }
    sum
}

// The sum over all that a device drives in these rounds.
pub fn sum_on<L: Layout>(memory: &mut [L::Cell], clocks: &Clocks, rounds: u32) -> u32 {
    let mut device: CellDevice<'_, L> = CellDevice::new(memory, clocks.sheet);
    play_rounds(&mut device, clocks.pins.as_slice(), rounds)
}
