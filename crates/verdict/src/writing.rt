// A page: a buffer that a host lends, and how much of it is written.
ghost use Rattle.std.specs.Prelude.{◌≡◌, ◌%◌, ◌<◌, true, [], ◌∷◌, length, decimal};
ghost use Rattle.std.specs.Fmt.{digit_glyph};
ghost use Rattle.trace.specs.Digits.{hex};

// No memory is taken, so this is no `String`; and `write!` says which bytes it wrote only where it answers `Ok`, which no
// clause promises.
#[derive(Drop)]
pub struct Page<'a> {
    out: &'a mut [u8],
    end: usize,
}

impl<'a> Page<'a> {
    ghost use Rattle.verdict.specs.Wrote.{HasRoom, Writes};

    // An empty page.
    pub fn new(out: &'a mut [u8]) -> Page<'a>
        ensures out { result.out ≡ out.entry }
        ensures end { result.end ≡ 0 }
    {
        Page { out, end: 0 }
    }

    // How many bytes are written.
    pub fn len(&self) -> usize
        ensures { result ≡ self.now.end }
    {
        self.end
    }

    pub fn byte(&mut self, byte: u8)
        requires { HasRoom self.old 1 }
        ensures { Writes self.old (byte ∷ []) self.new }
    {
        self.out[self.end] = byte;
        self.end += 1;
    }

    pub fn bytes(&mut self, text: &[u8])
        requires { HasRoom self.old (length text.now) }
        ensures { Writes self.old text.now self.new }
    {
        let end = self.end + text.len();
        self.out[self.end..end].copy_from_slice(text);
        self.end = end;
    }

    // The last digits of a number, in hexadecimal capitals.
    pub fn hex(&mut self, digits: usize, value: u32)
        requires { HasRoom self.old digits }
        ensures { Writes self.old (hex digits value) self.new }
    {
        if digits > 0 {
            self.hex(digits - 1, value / 16);
            self.byte(hex_digit(value % 16));
        }
    }

    pub fn decimal(&mut self, value: u64)
        requires { HasRoom self.old (length (decimal value)) }
        ensures { Writes self.old (decimal value) self.new }
    {
        if value < 10 {
            self.byte(b'0' + value as u8);
        } else {
            self.decimal(value / 10);
            self.byte(b'0' + (value % 10) as u8);
        }
    }
}

fn hex_digit(digit: u32) -> u8
    requires { digit < 16 }
    ensures { result ≡ digit_glyph true digit }
{
    let digit = digit as u8;
    if digit < 10 {
        b'0' + digit
    } else {
        b'A' + (digit - 10)
    }
}
