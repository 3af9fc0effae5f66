//! The addresses of properties.
ghost use Rattle.std.specs.Prelude.{◌≡◌};
ghost use Rattle.property_text.specs.Texts.{place_meant, word_meant};

use crate::fault::PropertyFault;
use debug_text::{DebugFault, address_meant};
use elf_read::Symbol;
use std::alloc::Allocator;

/// An address: a number, or a symbol with or without an offset.
pub(crate) fn place_meant<A: Allocator>(
    symbols: &[Symbol<A>],
    text: &[u8],
) -> Result<u32, PropertyFault>
    ensures { result ≡ place_meant symbols.now text.now }
{
    match address_meant(symbols, text) {
        Ok(address) => Ok(address),
        Err(DebugFault::NoSymbol) => Err(PropertyFault::NoSymbol),
        Err(DebugFault::SeveralSymbols) => Err(PropertyFault::SeveralSymbols),
        Err(DebugFault::BadCommand | DebugFault::PastEnd | DebugFault::Memory) => {
            Err(PropertyFault::BadAddress)
        }
    }
}

/// The address of a word that a text means, or why it means none. It may be given as a symbol of
/// the program, with or without an offset; the symbols are these.
pub fn word_meant<A: Allocator>(symbols: &[Symbol<A>], text: &[u8]) -> Result<u32, PropertyFault>
    ensures { result ≡ word_meant symbols.now text.now }
{
    let address = place_meant(symbols, text)?;
    if address % 4 != 0 {
        return Err(PropertyFault::Misaligned);
    }
    Ok(address)
}
