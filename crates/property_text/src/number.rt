//! The numbers with which words are compared.
ghost use Rattle.std.specs.Prelude.{◌≡◌};
ghost use Rattle.property_text.specs.Texts.{number_meant, negative};

use debug_text::{address_of, decimal_of};

// The word of the negative number with these digits, if it is at least -2^31.
fn negative_of(digits: &[u8]) -> Option<u32>
    ensures { result ≡ negative digits.now }
{
    let number = decimal_of(digits)?;
    if number > 1 << 31 {
        return None;
    }
    Some((number as u32).wrapping_neg())
}

/// The word of a number: a decimal one from -2^31 to 2^32 - 1, or `0x` and hexadecimal digits.
pub(crate) fn number_meant(text: &[u8]) -> Option<u32>
    ensures { result ≡ number_meant text.now }
{
    match text {
        [b'-', digits @ ..] => negative_of(digits),
        _ => address_of(text),
    }
}
