ghost use Rattle.std.specs.Prelude.{◌≡◌, ◌^◌, ◌<◌, length, IfOk, Ok, string_bytes};
ghost use Rattle.sheet.specs.Admit.{numbers};
ghost use Rattle.trace.specs.Body.{clocks};
ghost use Rattle.listing.specs.Page.{names, field_text, heading_text, row_text, rows_text, page_text, listing_of};

use crate::words::Listed;
use console::refusal_line;
use rules::{Pins, decode};
use sheet::{NAMES, Sheet};
use std::alloc::{AllocError, Global};
use trace::{Clocks, Trace, lines};

// The line of a field.
fn field_line(heap: Global, name: &str, value: u32) -> Result<String, AllocError>
    ensures { IfOk result (λ s. string_bytes s ≡ field_text name.now value) }
{
    format!(in heap; "{name}\t{value}\n")
}

// A line for each field of the sheet: its name and its value.
fn heading_text(heap: Global, sheet: &Sheet) -> Result<String, AllocError>
    ensures { IfOk result (λ s. string_bytes s ≡ heading_text names (numbers sheet.now)) }
{
    let fields = sheet.fields();
    let mut text = String::new(heap);
    for (name, value) in NAMES.iter().zip(fields.iter()) {
        let line = field_line(heap, name, *value)?;
        text.push_str(line.as_str())?;
    }
    Ok(text)
}

// The line of a clock: its number, the command, DQM and DQ.
fn row_text(heap: Global, latency: u32, clock: usize, pins: Pins) -> Result<String, AllocError>
    ensures { IfOk result (λ s. string_bytes s ≡ row_text latency clock pins) }
{
    let command = Listed {
        latency,
        command: decode(pins),
    };
    let dqm = pins.dqm % 16;
    let dq = pins.dq;
    format!(in heap; "{clock}\t{command}\t{dqm:X}\t{dq:08X}\n")
}

// The lines of the clocks.
fn rows_text(heap: Global, latency: u32, clocks: Clocks<'_>) -> Result<String, AllocError>
    requires { length clocks < 2 ^ 64 }
    ensures { IfOk result (λ s. string_bytes s ≡ rows_text latency 1 clocks.entry) }
{
    let mut text = String::new(heap);
    for (k, pins) in clocks.enumerate() {
        let line = row_text(heap, latency, k + 1, pins)?;
        text.push_str(line.as_str())?;
    }
    Ok(text)
}

fn trace_text(heap: Global, trace: &Trace<'_>) -> Result<String, AllocError>
    ensures { IfOk result (λ s. string_bytes s ≡ page_text (Ok (numbers trace.now.sheet, clocks trace.now.body.now))) }
{
    let mut page = heading_text(heap, &trace.sheet)?;
    let rows = rows_text(heap, trace.sheet.cl, trace.clocks())?;
    page.push_str(rows.as_str())?;
    Ok(page)
}

// The listing of a text: its sheet and its clocks, or the line that says why it is refused.
pub fn listing(heap: Global, text: &[u8]) -> Result<String, AllocError>
    ensures { IfOk result (λ s. string_bytes s ≡ listing_of text.now) }
{
    match lines(text) {
        Ok(trace) => trace_text(heap, &trace),
        Err(refusal) => refusal_line(heap, refusal),
    }
}
