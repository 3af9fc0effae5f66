//! Numbers in commands.
ghost use Rattle.std.specs.Prelude.{◌≡◌, ◌<◌, ◌^◌, IfSome};
ghost use Rattle.debug_text.specs.Numbers.{hex_digit_value, number_after, read_digits, held_number, decimal_of, read_address};

// The value of a hexadecimal digit of either case.
fn digit_of(byte: u8) -> Option<u64>
    ensures value { result ≡ hex_digit_value byte }
    ensures small { IfSome result (λ digit. digit < 16) }
{
    match byte {
        b'0'..=b'9' => Some(u64::from(byte - b'0')),
        b'A'..=b'F' => Some(u64::from(byte - b'A') + 10),
        b'a'..=b'f' => Some(u64::from(byte - b'a') + 10),
        _ => None,
    }
}

// The number of one or more digits of a base, capped at 2^64 - 1.
#[tactic(auto, unfolding(crate::specs::Numbers::number_after))]
fn number_of(base: u64, digits: &[u8]) -> Option<u64>
    requires { 0 < base }
    ensures { result ≡ held_number base digits.now }
{
    if digits.is_empty() {
        return None;
    }
    let mut number = 0u64;
    'digits: for byte in digits {
        let Some(digit) = digit_of(*byte) else {
            return None;
        };
        if digit >= base {
            return None;
        }
        number = number.saturating_mul(base).saturating_add(digit);
    }
    Some(number)
}

/// A decimal number of one or more digits, capped at 2^64 - 1.
pub fn decimal_of(text: &[u8]) -> Option<u64>
    ensures { result ≡ decimal_of text.now }
{
    number_of(10, text)
}

/// An address: a decimal number, or `0x` and hexadecimal digits of either case, below 2^32.
pub fn address_of(text: &[u8]) -> Option<u32>
    ensures { result ≡ read_address text.now }
{
    let number = match text {
        [b'0', b'x', digits @ ..] => number_of(16, digits)?,
        _ => number_of(10, text)?,
    };
    if number > u64::from(u32::MAX) {
        return None;
    }
    Some(number as u32)
}
