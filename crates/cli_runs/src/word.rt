//! The word whose accesses are traced.

ghost use Rattle.std.specs.Prelude.{◌≡◌};
ghost use Rattle.cli_runs.specs.Words.{traced_word};

use debug_text::{DebugFault, address_meant};
use elf_read::Symbol;
use std::alloc::Allocator;

/// The address of the word that a text means, by the symbols of a program: of the one that has the
/// byte at a number, or at a symbol with or without an offset. The error is that of a debugger's
/// address.
pub fn traced_word<A: Allocator>(symbols: &[Symbol<A>], text: &[u8]) -> Result<u32, DebugFault>
    ensures { result ≡ traced_word symbols.now text.now }
{
    let address = address_meant(symbols, text)?;
    Ok(address - address % 4)
}

/// What has to be written in place of a text that means no word.
pub(crate) fn advice_for(fault: DebugFault) -> &'static str {
    match fault {
        DebugFault::NoSymbol => "the program has no such symbol",
        DebugFault::SeveralSymbols => {
            "several symbols of the program have this name: write the address"
        }
        DebugFault::BadCommand | DebugFault::PastEnd | DebugFault::Memory => {
            "an address is a symbol, as counter or counter+4, or 0x and hexadecimal digits below 2^32"
        }
    }
}
