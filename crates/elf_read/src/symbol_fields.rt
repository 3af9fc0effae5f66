//! What a symbol names, and where it is.
ghost use Rattle.std.specs.Prelude.{◌≡◌, ◌+◌, ◌≤◌, length, string_bytes};
ghost use Rattle.elf_read.specs.SymbolFields.{symbol_kind, symbol_place, read_symbol};

use crate::elf::{
    SHN_ABS, ST_INFO, ST_SHNDX, ST_VALUE, STT_FILE, STT_FUNC, STT_NOTYPE, STT_OBJECT, STT_SECTION,
};
use crate::number::{half_at, word_at};
use crate::symbol::{Symbol, SymbolKind, SymbolPlace};
use std::alloc::Allocator;

// What a symbol with this st_info names: the type is its low half.
fn symbol_kind(info: u8) -> SymbolKind
    ensures { result ≡ symbol_kind info }
{
    let type_said = info % 16;
    if type_said == STT_NOTYPE {
        SymbolKind::Unsaid
    } else if type_said == STT_OBJECT {
        SymbolKind::Object
    } else if type_said == STT_FUNC {
        SymbolKind::Function
    } else if type_said == STT_SECTION {
        SymbolKind::Section
    } else if type_said == STT_FILE {
        SymbolKind::File
    } else {
        SymbolKind::Other
    }
}

// Where a symbol with this st_shndx is.
fn symbol_place(section: u16) -> SymbolPlace
    ensures { result ≡ symbol_place section }
{
    if section == SHN_ABS {
        SymbolPlace::Absolute
    } else {
        SymbolPlace::Elsewhere
    }
}

/// The symbol at an offset, with a name that is in the table of names.
#[tactic(auto, unfolding(crate::specs::SymbolFields::read_symbol))]
pub fn read_symbol<A: Allocator>(bytes: &[u8], place: usize, name: String<A>) -> Symbol<A>
    requires { place + 16 ≤ length bytes.now }
    ensures { result ≡ read_symbol bytes.now place (string_bytes name) }
{
    Symbol {
        name,
        address: word_at(bytes, place + ST_VALUE),
        kind: symbol_kind(bytes[place + ST_INFO]),
        place: symbol_place(half_at(bytes, place + ST_SHNDX)),
    }
}
