ghost use Rattle.std.specs.Prelude.{◌≡◌, ◌^◌, ◌<◌, ◌≤◌, length, IfSome};
ghost use Rattle.trace.specs.Digits.{digit_of, number_of, decimal_of};

// The value of a hexadecimal digit; its letters are capitals.
fn digit(byte: u8) -> Option<u8>
    ensures { result ≡ digit_of byte }
{
    match byte {
        b'0'..=b'9' => Some(byte - b'0'),
        b'A'..=b'F' => Some(byte - b'A' + 10),
        _ => None,
    }
}

// The number that the digits write in a base of at most 16, if each is a digit of that base. The `from_str_radix` of std
// would take a sign and small letters too.
pub fn number(base: u8, digits: &[u8]) -> Option<u64>
    requires small { base ≤ 16 }
    requires short { length digits.now ≤ 10 }
    ensures value { result ≡ number_of base digits.now }
    ensures bound { IfSome result (λ n. n < 16 ^ length digits.now) }
{
    let mut value = 0;
    for b in digits {
        let d = digit(*b)?;
        if d >= base {
            return None;
        }
        value = u64::from(base) * value + u64::from(d);
    }
    Some(value)
}

// The value of a decimal: 1 to 10 digits, the first of them no zero unless it is the only one.
pub fn decimal(digits: &[u8]) -> Option<u64>
    ensures { result ≡ decimal_of digits.now }
{
    if digits.is_empty() || digits.len() > 10 {
        return None;
    }
    if digits[0] == b'0' && digits.len() > 1 {
        return None;
    }
    number(10, digits)
}
