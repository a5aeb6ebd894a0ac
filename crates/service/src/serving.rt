ghost use Rattle.std.specs.Prelude.{◌≡◌};
ghost use Rattle.book.specs.Answers.{Answered, IfRefused};
ghost use Rattle.book.specs.Jobs.{ask_of};
ghost use Rattle.driver.specs.Devices.{device_of, channel_of};
ghost use Rattle.driver.specs.States.{Rest};
ghost use Rattle.service.specs.Served.{Served, Whole};

use book::{Job, Refusal, Request};
use device::Device;
use driver::{Off, Ready};

// Makes one request.
pub fn ask<D: Device>(driver: &mut Ready<D>, request: &mut Request) -> Result<u32, Refusal>
    ensures rest { Rest D.Device.reachable D.Device.meaning (channel_of driver.new) }
    ensures answered { Answered (D.Device.meaning (device_of driver.old)) (D.Device.meaning (device_of driver.new)) (ask_of request.old) (ask_of request.new) result }
    ensures same { IfRefused result (driver.new ≡ driver.old) }
{
    match request {
        Request::Read { address, buffer } => driver.read(*address, buffer.as_mut_slice()),
        Request::Write {
            pen,
            address,
            words,
        } => driver.write(pen, *address, words.as_slice()),
        Request::Fill {
            pen,
            address,
            length,
        } => driver.fill(pen, *address, *length),
        Request::Wait { clocks } => driver.wait(*clocks),
    }
}

// Makes the requests in order; each job then has its answer.
pub fn serve<D: Device>(driver: &mut Ready<D>, jobs: &mut [Job])
    ensures rest { Rest D.Device.reachable D.Device.meaning (channel_of driver.new) }
    ensures served { Served (D.Device.meaning (device_of driver.old)) jobs.old jobs.new (D.Device.meaning (device_of driver.new)) }
{
    driver.at_rest();
    for job in jobs.iter_mut() {
        job.answer = Some(ask(driver, &mut job.request));
    }
}

// From any state of the device: switches it on, settles and primes it, and makes the requests in order. Gives the
// device back.
pub fn session<D: Device>(device: D, jobs: &mut [Job]) -> D
    ensures law { Whole (D.Device.meaning device) jobs.old jobs.new (D.Device.meaning result) }
    ensures reachable { D.Device.reachable result }
{
    let mut driver = Off::new(device).settle().prime();
    serve(&mut driver, jobs);
    driver.release()
}
