//! Hexadecimal numbers.
ghost use Rattle.std.specs.Prelude.{◌≡◌};
ghost use Rattle.gdb_requests.specs.Numbers.{hex_number};

use gdb_frames::hex_value;

// The largest number to which a digit may be appended.
const MOST: u32 = u32::MAX >> 4;

/// The number of one or more hexadecimal digits of either case, if it is below 2^32.
pub fn hex_number(digits: &[u8]) -> Option<u32>
    ensures { result ≡ hex_number digits.now }
{
    if digits.is_empty() {
        return None;
    }
    let mut number = 0u32;
    'digits: for byte in digits {
        let Some(digit) = hex_value(*byte) else {
            return None;
        };
        if number > MOST {
            return None;
        }
        number = 16 * number + u32::from(digit);
    }
    Some(number)
}
