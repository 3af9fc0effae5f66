//! Numbers and references.
ghost use Rattle.std.specs.Prelude.{◌≡◌, ◌≤◌, ◌<◌, length};
ghost use Rattle.asm_lex.specs.Numbers.{digit_value, number_in, digits_number};

// The value of a digit of either case, or 16 if the byte is not a digit.
fn digit_of(byte: u8) -> u32
    ensures { result ≡ digit_value byte }
{
    match byte {
        b'0'..=b'9' => u32::from(byte - b'0'),
        b'a'..=b'f' => u32::from(byte - b'a') + 10,
        b'A'..=b'F' => u32::from(byte - b'A') + 10,
        _ => 16,
    }
}

// The number that the digits spell, if it is below 2^32.
#[tactic(auto, using(crate::proofs::Scanned::number_is, crate::proofs::Scanned::number_empty))]
fn number_in(base: u32, digits: &[u8]) -> Option<u32>
    requires { base ≤ 16 }
    ensures { result ≡ number_in base digits.now }
{
    if digits.is_empty() {
        return None;
    }
    let mut value: u64 = 0;
    for byte in digits {
        let digit = digit_of(*byte);
        if digit >= base {
            return None;
        }
        value = value * u64::from(base) + u64::from(digit);
        if value > 0xffff_ffff {
            return None;
        }
    }
    Some(value as u32)
}

/// The number that a word spells, if it is below 2^32: decimal, `0x`, `0b`, or octal after a
/// leading 0.
#[tactic(auto, using(crate::proofs::Scanned::number_short, crate::proofs::Scanned::number_plain), unfolding(crate::specs::Numbers::digits_number))]
pub fn number_of(word: &[u8]) -> Option<u32>
    ensures { result ≡ digits_number word.now }
{
    match word {
        [b'0', b'x', digits @ ..] => number_in(16, digits),
        [b'0', b'b', digits @ ..] => number_in(2, digits),
        [b'0', _, ..] => number_in(8, &word[1..]),
        _ => number_in(10, word),
    }
}
