//! Numbers of the command line.

ghost use Rattle.std.specs.Prelude.{◌≡◌, ◌+◌, ◌^◌, Some, None, IfOk, IfErr};
ghost use Rattle.cli_args.specs.Numbers.{number_below};

use crate::line::LineFault;

// Numbers are below this limit.
const LIMIT: u128 = 1 << 64;

/// The number below 2^64 of one or more decimal digits. Leading zeros are allowed, a sign isn't.
pub(crate) fn number_in(digits: &[u8]) -> Option<u64>
    ensures { result ≡ number_below (2 ^ 64) digits.now }
{
    if digits.is_empty() {
        return None;
    }
    let mut value = 0u128;
    'digits: for digit in digits {
        if !digit.is_ascii_digit() {
            return None;
        }
        value = (10 * value + u128::from(*digit - b'0')).min(LIMIT);
    }
    if value < LIMIT {
        Some(value as u64)
    } else {
        None
    }
}

/// A number of one or more decimal digits that is at most `most`. Leading zeros are allowed, a sign
/// isn't.
pub fn read_number(text: &str, most: u64) -> Result<u64, LineFault>
    ensures ok { IfOk result (λ n. number_below (most + 1) text.now ≡ Some n) }
    ensures err { IfErr result (λ fault. fault ≡ LineFault.BadNumber) }
    ensures none { IfErr result (λ _. number_below (most + 1) text.now ≡ None) }
{
    match number_in(text.as_bytes()) {
        Some(number) if number <= most => Ok(number),
        _ => Err(LineFault::BadNumber),
    }
}
