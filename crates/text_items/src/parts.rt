//! The parts of an item: decimal numbers and the mark after them.

ghost use Rattle.std.specs.Prelude.{◌≡◌, ◌==◌, ◌≤◌, length};
ghost use Rattle.std.specs.List.{position_or_len};
ghost use Rattle.text_items.specs.Numbers.{number_of, has_mark, unmarked, before_byte, from_byte};

/// Numbers from here on are all read as this one: no hart's number and no count is this large.
pub const CAP: u64 = 1 << 32;

/// The number of one or more decimal digits without a leading zero, `CAP` if it is larger.
pub fn number(digits: &[u8]) -> Option<u64>
    ensures { result ≡ number_of digits.now }
{
    let Some(first) = digits.first() else {
        return None;
    };
    if *first == b'0' && digits.len() > 1 {
        return None;
    }
    let mut value = 0u64;
    for digit in digits {
        if !digit.is_ascii_digit() {
            return None;
        }
        value = (10 * value + u64::from(*digit - b'0')).min(CAP);
    }
    Some(value)
}

/// An item without the `!` at its end, and whether there was one.
pub fn split_mark(item: &[u8]) -> (&[u8], bool)
    ensures mark { result.1 ≡ has_mark item.now }
    ensures front { result.0.now ≡ unmarked item.now }
{
    match item {
        [front @ .., b'!'] => (front, true),
        _ => (item, false),
    }
}

// Number of bytes before the first one with this value.
fn place_of(item: &[u8], byte: u8) -> usize
    ensures count { result ≡ position_or_len (λ b. b == byte) item.now }
    ensures within { result ≤ length item.now }
{
    item.iter().take_while(|b| **b != byte).count()
}

/// The bytes before the first byte of this value, and those from it on; the latter are empty if it
/// isn't there.
pub fn split_at_byte(item: &[u8], byte: u8) -> (&[u8], &[u8])
    ensures before { result.0.now ≡ before_byte byte item.now }
    ensures rest { result.1.now ≡ from_byte byte item.now }
{
    item.split_at(place_of(item, byte))
}
