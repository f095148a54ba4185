//! The values of numbers and of bits denotations.
ghost use Rattle.std.specs.Prelude.{◌≡◌, ◌≤◌, ◌<◌, ◌^◌, ◌*◌, ◌+◌, SomeIff};
ghost use Rattle.a68_denote.specs.Numbers.{digit_of, number_below, int_in, long_in, radix_in, bits_in};
ghost use Rattle.std.specs.Option.{option_map};

// The digit that a byte is, or 16 where it is none.
fn digit(byte: u8) -> u64
    ensures value { result ≡ digit_of byte }
    ensures most { result ≤ 16 }
{
    match byte {
        b'0'..=b'9' => u64::from(byte - b'0'),
        b'a'..=b'f' => u64::from(byte - b'a') + 10,
        _ => 16,
    }
}

// A number with one more digit behind it, where it is below 2 to the power 128.
fn with_digit(number: u128, radix: u64, digit: u64) -> Option<u128>
    ensures { SomeIff result (number * radix + digit < 2 ^ 128) (number * radix + digit) }
{
    number
        .checked_mul(u128::from(radix))?
        .checked_add(u128::from(digit))
}

// The value of digits of the radix, where it is below 2 to the power 128.
fn number(radix: u64, text: &[u8]) -> Option<u128>
    requires { (0 < radix) × (radix ≤ 16) }
    ensures { result ≡ number_below (2 ^ 128) radix text.now }
{
    if text.is_empty() {
        return None;
    }
    let mut value = 0;
    for byte in text {
        let digit = digit(*byte);
        if digit >= radix {
            return None;
        }
        value = with_digit(value, radix, digit)?;
    }
    Some(value)
}

/// The INT that a number without its layout stands for (Report, 8.1.1): digits alone, of a value below 2 to the power
/// 63. None for every other text.
pub fn int_of(text: &[u8]) -> Option<i64>
    ensures { result ≡ int_in text.now }
{
    let value = number(10, text)?;
    i64::try_from(value).ok()
}

/// The LONG INT that a number without its layout stands for behind LONG (Report, 8.1.1): digits alone, of a value below 2
/// to the power 127. None for every other text.
pub fn long_of(text: &[u8]) -> Option<i128>
    ensures { result ≡ long_in text.now }
{
    let value = number(10, text)?;
    i128::try_from(value).ok()
}

// The radix of a bits denotation, and what stands behind its r.
fn radix(text: &[u8]) -> Option<(u64, &[u8])>
    ensures { option_map (λ found. (found.0, found.1.now)) result ≡ radix_in text.now }
{
    match text {
        [b'2', b'r', digits @ ..] => Some((2, digits)),
        [b'4', b'r', digits @ ..] => Some((4, digits)),
        [b'8', b'r', digits @ ..] => Some((8, digits)),
        [b'1', b'6', b'r', digits @ ..] => Some((16, digits)),
        _ => None,
    }
}

/// The BITS that a bits denotation without its layout stands for (Report, 8.2): `2r`, `4r`, `8r` or `16r` and one digit
/// of that radix or more, where `a` to `f` are 10 to 15, of a value below 2 to the power 64. None for every other text.
pub fn bits_of(text: &[u8]) -> Option<u64>
    ensures { result ≡ bits_in text.now }
{
    let (radix, digits) = radix(text)?;
    let value = number(radix, digits)?;
    u64::try_from(value).ok()
}
