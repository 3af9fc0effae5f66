//! The text of a range in which no two harts may be: `A..B`.
ghost use Rattle.std.specs.Prelude.{◌≡◌, ◌+◌, ◌≤◌, IfSome, length};
ghost use Rattle.property_text.specs.Texts.{dots_from, never_both_of, never_both_split};

use crate::fault::PropertyFault;
use crate::places::place_meant;
use elf_read::Symbol;
use property_judge::Property;
use std::alloc::Allocator;

// Number of bytes before the first `..`, if there is one.
fn dots_at(text: &[u8]) -> Option<usize>
    ensures place { result ≡ dots_from 0 text.now }
    ensures within { IfSome result (λ at. at + 2 ≤ length text.now) }
{
    'bytes: for (at, byte) in text.iter().enumerate() {
        if *byte == b'.' && at + 1 < text.len() && text[at + 1] == b'.' {
            return Some(at);
        }
    }
    None
}

// The property of a range from one address to another.
fn never_both_split<A: Allocator>(
    symbols: &[Symbol<A>],
    from: &[u8],
    to: &[u8],
) -> Result<Property, PropertyFault>
    ensures { result ≡ never_both_split symbols.now from.now to.now }
{
    let from = place_meant(symbols, from)?;
    let to = place_meant(symbols, to)?;
    if from >= to {
        return Err(PropertyFault::EmptyRange);
    }
    Ok(Property::NeverBoth { from, to })
}

/// The property that no two harts are in a range at once that a text says, or why it says none. The
/// first address is in the range, the second isn't. Addresses may be given as symbols of the
/// program, which are these.
#[tactic(auto, unfolding(crate::specs::Texts::never_both_of))]
pub fn read_never_both<A: Allocator>(
    symbols: &[Symbol<A>],
    text: &[u8],
) -> Result<Property, PropertyFault>
    ensures { result ≡ never_both_of symbols.now text.now }
{
    match dots_at(text) {
        Some(at) => never_both_split(symbols, &text[..at], &text[at + 2..]),
        None => Err(PropertyFault::BadRange),
    }
}
