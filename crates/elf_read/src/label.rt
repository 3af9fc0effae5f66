//! The label of an address.
ghost use Rattle.std.specs.Prelude.{◌≡◌, None, option_map};
ghost use Rattle.elf_read.specs.Label.{is_mapping, is_label, is_thing, is_preferred, is_nearer_label, nearest_label};

use crate::symbol::{Symbol, SymbolKind, SymbolPlace};
use std::alloc::Allocator;

// Whether a name is that of a mapping symbol, which marks where code or data begins (RISC-V ELF
// psABI, "Mapping Symbol").
fn is_mapping(name: &str) -> bool
    ensures { result ≡ is_mapping name.now }
{
    name.starts_with("$x") || name.starts_with("$d")
}

// Whether a symbol is a label: no mapping symbol, no name of a source file, no absolute value.
fn is_label<A: Allocator>(symbol: &Symbol<A>) -> bool
    ensures { result ≡ is_label symbol.now }
{
    match (symbol.kind, symbol.place) {
        (SymbolKind::File, _) => false,
        (_, SymbolPlace::Absolute) => false,
        (_, SymbolPlace::Elsewhere) => !is_mapping(symbol.name.as_str()),
    }
}

// Whether a kind is that of a function or an object.
fn is_thing(kind: SymbolKind) -> bool
    ensures { result ≡ is_thing kind }
{
    matches!(kind, SymbolKind::Function | SymbolKind::Object)
}

// Whether a symbol is above another one, or a function or an object at the same address, where the
// other one is none.
fn is_preferred<A: Allocator>(best: &Symbol<A>, symbol: &Symbol<A>) -> bool
    ensures { result ≡ is_preferred best.now symbol.now }
{
    best.address < symbol.address
        || (best.address == symbol.address && is_thing(symbol.kind) && !is_thing(best.kind))
}

// Whether a symbol is a label at or below an address, and goes before the nearest one so far.
fn is_nearer_label<A: Allocator>(best: Option<&Symbol<A>>, symbol: &Symbol<A>, address: u32) -> bool
    ensures { result ≡ is_nearer_label (option_map (λ s. s.now) best.entry) symbol.now address }
{
    if symbol.address > address || !is_label(symbol) {
        return false;
    }
    match best {
        None => true,
        Some(best) => is_preferred(best, symbol),
    }
}

/// Of the labels with the greatest address that is at most a given one the first function or object,
/// or the first of all if none is one; `None` if each is above.
///
/// Each symbol is a label but for mapping symbols, names of source files, and absolute values.
pub fn nearest_label<A: Allocator>(symbols: &[Symbol<A>], address: u32) -> Option<&Symbol<A>>
    ensures { option_map (λ s. s.now) result ≡ nearest_label None symbols.now address }
{
    let mut best = None;
    'symbols: for symbol in symbols {
        if is_nearer_label(best, symbol, address) {
            best = Some(symbol);
        }
    }
    best
}
