// Numbers as digits.
ghost use Rattle.std.specs.Prelude.{◌≡◌, ◌^◌, ◌<◌, ◌≤◌, length, IfSome};
ghost use Rattle.text.specs.Numerals.{with_digit, digits_in, number_in, signed_in};

// One more digit behind those of `number`.
fn with_digit(number: u32, byte: u8, radix: u32) -> Option<u32>
    requires low { 2 ≤ radix }
    requires high { radix ≤ 36 }
    ensures { result ≡ with_digit radix number byte }
{
    let digit = char::from(byte).to_digit(radix)?;
    number.checked_mul(radix)?.checked_add(digit)
}

/// The number that these digits write, which are few enough to fit.
pub(crate) fn read_digits(digits: &[u8], radix: u32) -> Option<u32>
    requires low { 2 ≤ radix }
    requires high { radix ≤ 36 }
    requires few { radix ^ length digits.now ≤ 2 ^ 32 }
    ensures { result ≡ digits_in radix digits.now }
{
    digits
        .iter()
        .try_fold(0, |number, byte| with_digit(number, *byte, radix))
}

/// The number of one to nine decimal digits, with leading zeros or without.
pub fn read_number(digits: &[u8]) -> Option<u32>
    ensures value { result ≡ number_in digits.now }
    ensures below { IfSome result (λ n. n < 10 ^ 9) }
{
    match digits.len() {
        1..=9 => read_digits(digits, 10),
        _ => None,
    }
}

/// The number of one to nine decimal digits, negative behind a minus.
pub fn read_signed(text: &[u8]) -> Option<i32>
    ensures { result ≡ signed_in text.now }
{
    match text {
        [b'-', digits @ ..] => Some(-(read_number(digits)? as i32)),
        _ => Some(read_number(text)? as i32),
    }
}
