//! Why a text is no property.

use thiserror::Error;

/// Why a text is no property. If several apply, the one of the part that stands first counts.
#[derive(Clone, Copy, Debug, PartialEq, Eq, Error)]
pub enum PropertyFault {
    /// The text of `--always` isn't three words. It takes precedence over the others.
    #[error("bad property")]
    BadProperty,
    /// The text of `--never-both` has no `..`. It takes precedence over the others.
    #[error("bad range")]
    BadRange,
    /// An address is neither a number nor a symbol with or without an offset, or it isn't below
    /// 2^32.
    #[error("bad address")]
    BadAddress,
    /// No symbol of the program has the name that stands for an address.
    #[error("no symbol")]
    NoSymbol,
    /// Several symbols have this name, at different addresses.
    #[error("several symbols")]
    SeveralSymbols,
    /// The address of a word isn't a multiple of 4.
    #[error("misaligned word")]
    Misaligned,
    /// The second word is no comparison.
    #[error("bad comparison")]
    BadComparison,
    /// The third word is no number, or no word has it: it is below -2^31 or above 2^32 - 1.
    #[error("bad number")]
    BadNumber,
    /// No address is in the range: its second isn't above its first.
    #[error("empty range")]
    EmptyRange,
}

impl PropertyFault {
    /// What has to be written in place of a text that is no property.
    pub fn advice(self) -> &'static str {
        match self {
            PropertyFault::BadProperty => {
                "--always takes a word, a comparison and a number, as 'counter <= 2'"
            }
            PropertyFault::BadRange =>
                "--never-both takes two addresses with .. between, as enter..leave",
            PropertyFault::BadAddress => {
                "an address is a symbol, as lock or lock+4, or 0x and hexadecimal digits below 2^32"
            }
            PropertyFault::NoSymbol => "the program has no such symbol",
            PropertyFault::SeveralSymbols => {
                "several symbols of the program have this name: write the address"
            }
            PropertyFault::Misaligned => "the address of a word is a multiple of 4",
            PropertyFault::BadComparison => {
                "the comparisons are == != < <= > >=, and <u <=u >u >=u of unsigned numbers"
            }
            PropertyFault::BadNumber => {
                "the number is a decimal one from -2147483648 to 4294967295, or 0x and hexadecimal digits"
            }
            PropertyFault::EmptyRange => "the second address of a range is above the first",
        }
    }
}
