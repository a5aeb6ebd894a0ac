ghost use Rattle.std.specs.Prelude.{◌≡◌, Some};
ghost use Rattle.std.specs.Option.{option_to_list};
ghost use Rattle.sheet.specs.Admit.{refusal};
ghost use Rattle.trace.specs.Answer.{answer, printed};

use sheet::{Field, SheetError};
use std::fmt;

// Why a text is not judged, in the order in which the reasons are sought.
#[derive(Clone, Copy, PartialEq, Eq, Debug)]
pub enum Refusal {
    // the text has more bytes than a trace may have
    TextTooLong,
    // the text does not begin with a well-formed sheet line
    NoSheet,
    // the sheet's first field out of range
    FieldOutOfRange(Field),
    // ret is too small for the sheet's n
    RoundTooLong,
    // the memory handed in is too short for the sheet's rows
    ShortMemory,
    // the number of the first clock line that is ill-formed; the sheet line is line 1
    IllFormedLine(usize),
    // the output handed in is too short for what would be written
    ShortOutput,
}

impl Refusal {
    // The number under which the refusal is reported. By name and no `From`: a bare conversion would not say which number.
    pub fn number(self) -> u8
        ensures { result ≡ (answer self).0 }
    {
        match self {
            Refusal::FieldOutOfRange(_) => 1,
            Refusal::RoundTooLong => 2,
            Refusal::ShortMemory => 3,
            Refusal::NoSheet => 5,
            Refusal::IllFormedLine(_) => 6,
            Refusal::ShortOutput => 7,
            Refusal::TextTooLong => 8,
        }
    }

    // The field's place or the line's number, where there is one.
    pub fn place(self) -> Option<usize>
        ensures { option_to_list result ≡ (answer self).1 }
    {
        match self {
            Refusal::FieldOutOfRange(field) => Some(usize::from(field.place())),
            Refusal::IllFormedLine(line) => Some(line),
            Refusal::TextTooLong
            | Refusal::NoSheet
            | Refusal::RoundTooLong
            | Refusal::ShortMemory
            | Refusal::ShortOutput => None,
        }
    }
}

impl From<SheetError> for Refusal {
    ghost from_gives = { λ e r. answer r ≡ refusal e };

    fn from(error: SheetError) -> Refusal {
        match error {
            SheetError::OutOfRange(field) => Refusal::FieldOutOfRange(field),
            SheetError::RoundTooLong => Refusal::RoundTooLong,
        }
    }
}

// The number, and behind a tab the place or line, where there is one.
impl fmt::Display for Refusal {
    ghost output = { λ e. Some (printed (answer e)) };

    fn fmt<W: fmt::Write>(&self, f: &mut fmt::Formatter<W>) -> fmt::Result {
        let number = self.number();
        match self.place() {
            Some(place) => write!(f, "{number}\t{place}"),
            None => write!(f, "{number}"),
        }
    }
}
