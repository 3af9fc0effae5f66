//! The symbols of a head line.

ghost use Rattle.std.specs.Prelude.{◌≡◌, ◌++◌, map, OnOk};
ghost use Rattle.trace_text.specs.Composites.{array, more_elements};
ghost use Rattle.trace_text.specs.Head.{kind_part, place_part, symbol_front, symbol_object};

use crate::scalar::push_number;
use crate::string::push_string;
use elf_read::{Symbol, SymbolKind, SymbolPlace};
use std::alloc::{AllocError, Allocator};

// The member of what a symbol names behind others, if its table says it.
#[tactic(auto, unfolding(crate::specs::Head::kind_part))]
fn kind_part(kind: SymbolKind) -> &'static str
    ensures { result.now ≡ kind_part kind }
{
    match kind {
        SymbolKind::Unsaid => "",
        SymbolKind::Object => ",\"kind\":\"object\"",
        SymbolKind::Function => ",\"kind\":\"function\"",
        SymbolKind::Section => ",\"kind\":\"section\"",
        SymbolKind::File => ",\"kind\":\"file\"",
        SymbolKind::Other => ",\"kind\":\"other\"",
    }
}

// The member of an absolute value behind others.
#[tactic(auto, unfolding(crate::specs::Head::place_part))]
fn place_part(place: SymbolPlace) -> &'static str
    ensures { result.now ≡ place_part place }
{
    match place {
        SymbolPlace::Absolute => ",\"absolute\":true",
        SymbolPlace::Elsewhere => "",
    }
}

// Appends the opening brace, and a symbol's name and address.
#[tactic(auto, unfolding(crate::specs::Head::symbol_front, crate::specs::Composites::member))]
fn push_front<A: Allocator>(out: &mut Vec<u8, A>, symbol: &Symbol<A>) -> Result<(), AllocError>
    ensures { OnOk result (out.new.items ≡ out.old.items ++ symbol_front symbol.now) }
{
    out.extend_from_slice(b"{\"name\":")?;
    push_string(out, &symbol.name)?;
    out.extend_from_slice(b",\"address\":")?;
    push_number(out, u64::from(symbol.address))
}

// Appends a symbol.
#[tactic(auto, unfolding(crate::specs::Head::symbol_object))]
fn push_symbol<A: Allocator>(out: &mut Vec<u8, A>, symbol: &Symbol<A>) -> Result<(), AllocError>
    ensures { OnOk result (out.new.items ≡ out.old.items ++ symbol_object symbol.now) }
{
    push_front(out, symbol)?;
    out.extend_from_slice(kind_part(symbol.kind).as_bytes())?;
    out.extend_from_slice(place_part(symbol.place).as_bytes())?;
    out.extend_from_slice(b"}")
}

// Appends symbols behind a first, each behind a comma, and the closing bracket.
fn push_more_symbols<A: Allocator>(
    out: &mut Vec<u8, A>,
    symbols: &[Symbol<A>],
) -> Result<(), AllocError>
    ensures { OnOk result (out.new.items
        ≡ out.old.items ++ more_elements (map symbol_object symbols.now)) }
{
    'symbols: for symbol in symbols {
        out.push(b',')?;
        push_symbol(out, symbol)?;
    }
    out.push(b']')?;
    Ok(())
}

/// Appends the symbols.
pub(crate) fn push_symbols<A: Allocator>(
    out: &mut Vec<u8, A>,
    symbols: &[Symbol<A>],
) -> Result<(), AllocError>
    ensures { OnOk result (out.new.items ≡ out.old.items ++ array (map symbol_object symbols.now)) }
{
    let [first, rest @ ..] = symbols else {
        return out.extend_from_slice(b"[]");
    };
    out.push(b'[')?;
    push_symbol(out, first)?;
    push_more_symbols(out, rest)
}
