ghost use Rattle.std.specs.Prelude.{◌≡◌, ◌≤◌, length, IfSome, IfOk};
ghost use Rattle.trace.specs.Answer.{told};
ghost use Rattle.trace.specs.Opening.{mark, before_mark, end_before, field_of, sheet_line, heading_of, headed, IsEnd};

use crate::digits::decimal;
use crate::refusal::Refusal;
use crate::text::Opening;
use sheet::{FIELDS, Sheet};

// The most bytes that a trace may have.
pub const LIMIT: usize = 65536;

// Whether a byte ends a field.
fn ends_field(byte: u8) -> bool
    ensures { result ≡ mark byte }
{
    byte == b'\t' || byte == b'\n'
}

// How many bytes stand before the first tab or LF.
fn field_width(text: &[u8]) -> usize
    ensures { result ≡ before_mark text.now }
{
    text.iter()
        .position(|b| ends_field(*b))
        .unwrap_or(text.len())
}

// The byte behind a field when so many more follow: a tab, or LF at the last.
fn end_before(more: usize) -> u8
    ensures { result ≡ end_before more }
{
    if more == 0 { b'\n' } else { b'\t' }
}

// The decimal that begins the text with the given end behind it, and how many bytes both take.
fn field(text: &[u8], end: u8) -> Option<(u64, usize)>
    ensures value { result ≡ field_of end text.now }
    ensures within { IfSome result (λ f. f.1 ≤ length text.now) }
{
    let width = field_width(text);
    if width >= text.len() || text[width] != end {
        return None;
    }
    let value = decimal(&text[0..width])?;
    Some((value, width + 1))
}

// The numbers of the sheet line that begins the text, and how many bytes it takes with its LF.
fn sheet_line(text: &[u8]) -> Option<([u64; FIELDS], usize)>
    ensures value { result ≡ sheet_line text.now }
    ensures within { IfSome result (λ line. line.1 ≤ length text.now) }
{
    let mut fields = [0; FIELDS];
    let mut read = 0;
    for (i, place) in fields.iter_mut().enumerate() {
        let (value, width) = field(&text[read..], end_before(FIELDS - 1 - i))?;
        *place = value;
        read += width;
    }
    Some((fields, read))
}

// The text's sheet and the text behind its line, or the first of these reasons against it: it is too long, it has no
// sheet line, a field is out of range, ret is too small.
pub fn heading(text: &[u8]) -> Result<Opening<'_>, Refusal>
    ensures value { told (headed text.now) result ≡ heading_of text.now }
    ensures end { IfOk result (λ h. IsEnd text.now h.body.now) }
{
    if text.len() > LIMIT {
        return Err(Refusal::TextTooLong);
    }
    let Some(line) = sheet_line(text) else {
        return Err(Refusal::NoSheet);
    };
    let (fields, width) = line;
    let sheet = Sheet::admit(fields)?;
    Ok(Opening {
        sheet,
        body: &text[width..],
    })
}
