//! The values of the members of a file's object.

ghost use Rattle.std.specs.Prelude.{◌≡◌, ◌≢◌, ◌++◌, ◌∷◌, [], codes, decimal, map, Err, IfOk, OnOk};
ghost use Rattle.cmd_info.specs.Facts.{library_value, segment_object, symbol_shown, symbols_value};
ghost use Rattle.cmd_run.specs.Info.{rights_text, symbols_found};
ghost use Rattle.trace_text.specs.Composites.{array, member, more_elements};
ghost use Rattle.trace_text.specs.Values.{name_value};

use cmd_json::{
    push_name, push_name_member, push_next_number, push_number_member, push_string_member,
};
use cmd_run::RightsText;
use elf_read::{SymFault, Symbol};
use image::{Rights, Segment};
use object_library::Kind;
use std::alloc::{AllocError, Allocator};

// Appends where a segment begins, and its size, behind the opening brace.
fn push_extent<A: Allocator>(out: &mut Vec<u8, A>, base: u32, size: u32) -> Result<(), AllocError>
    ensures { OnOk result (out.new.items ≡ out.old.items
        ++ 123 ∷ (member (codes "base") (decimal base) ++ 44 ∷ member (codes "size") (decimal size))) }
{
    out.push(b'{')?;
    push_number_member(out, "base", u64::from(base))?;
    push_next_number(out, "size", u64::from(size))
}

// Appends rights, and the closing brace.
fn push_rights<A: Allocator + Copy>(
    alloc: A,
    out: &mut Vec<u8, A>,
    rights: Rights,
) -> Result<(), AllocError>
    ensures { OnOk result (out.new.items ≡ out.old.items
        ++ 44 ∷ (member (codes "rights") (name_value (rights_text rights.0)) ++ 125 ∷ [])) }
{
    let shown = RightsText(rights);
    let text = format!(in alloc; "{shown}")?;
    out.push(b',')?;
    push_name_member(out, "rights", &text)?;
    out.extend_from_slice(b"}")
}

// Appends a segment.
#[tactic(auto, unfolding(crate::specs::Facts::segment_object))]
fn push_segment<A: Allocator + Copy>(
    alloc: A,
    out: &mut Vec<u8, A>,
    segment: &Segment<A>,
) -> Result<(), AllocError>
    ensures { OnOk result (out.new.items ≡ out.old.items ++ segment_object segment.now) }
{
    push_extent(out, segment.base, segment.size)?;
    push_rights(alloc, out, segment.rights)
}

// Appends segments behind a first, each behind a comma, and the closing bracket.
fn push_more_segments<A: Allocator + Copy>(
    alloc: A,
    out: &mut Vec<u8, A>,
    segments: &[Segment<A>],
) -> Result<(), AllocError>
    ensures { OnOk result (out.new.items
        ≡ out.old.items ++ more_elements (map segment_object segments.now)) }
{
    'segments: for segment in segments {
        out.push(b',')?;
        push_segment(alloc, out, segment)?;
    }
    out.push(b']')?;
    Ok(())
}

/// Appends the array of segments.
pub(crate) fn push_segments<A: Allocator + Copy>(
    alloc: A,
    out: &mut Vec<u8, A>,
    segments: &[Segment<A>],
) -> Result<(), AllocError>
    ensures { OnOk result (out.new.items ≡ out.old.items ++ array (map segment_object segments.now)) }
{
    let [first, rest @ ..] = segments else {
        return out.extend_from_slice(b"[]");
    };
    out.push(b'[')?;
    push_segment(alloc, out, first)?;
    push_more_segments(alloc, out, rest)
}

// Appends a symbol.
#[tactic(auto, unfolding(crate::specs::Facts::symbol_shown))]
fn push_symbol<A: Allocator>(out: &mut Vec<u8, A>, symbol: &Symbol<A>) -> Result<(), AllocError>
    ensures { OnOk result (out.new.items ≡ out.old.items ++ symbol_shown symbol.now) }
{
    out.push(b'{')?;
    push_string_member(out, "name", &symbol.name)?;
    push_next_number(out, "address", u64::from(symbol.address))?;
    out.extend_from_slice(b"}")
}

// Appends symbols behind a first, each behind a comma, and the closing bracket.
fn push_more_symbols<A: Allocator>(
    out: &mut Vec<u8, A>,
    symbols: &[Symbol<A>],
) -> Result<(), AllocError>
    ensures { OnOk result (out.new.items
        ≡ out.old.items ++ more_elements (map symbol_shown symbols.now)) }
{
    'symbols: for symbol in symbols {
        out.push(b',')?;
        push_symbol(out, symbol)?;
    }
    out.push(b']')?;
    Ok(())
}

// Appends the array of symbols.
fn push_symbols<A: Allocator>(out: &mut Vec<u8, A>, symbols: &[Symbol<A>]) -> Result<(), AllocError>
    ensures { OnOk result (out.new.items ≡ out.old.items ++ array (map symbol_shown symbols.now)) }
{
    let [first, rest @ ..] = symbols else {
        return out.extend_from_slice(b"[]");
    };
    out.push(b'[')?;
    push_symbol(out, first)?;
    push_more_symbols(out, rest)
}

/// Appends the array of symbols, or `null` if the file's table is invalid. Fails when out of
/// memory, or if the symbols did.
#[tactic(auto, unfolding(crate::specs::Facts::symbols_value))]
pub(crate) fn push_found<A: Allocator>(
    out: &mut Vec<u8, A>,
    found: Result<Vec<Symbol<A>, A>, SymFault>,
) -> Result<(), AllocError>
    ensures added { OnOk result (out.new.items
        ≡ out.old.items ++ symbols_value (symbols_found found)) }
    ensures known { IfOk result (λ _. found ≢ Err SymFault.Memory) }
{
    match found {
        Ok(symbols) => push_symbols(out, &symbols),
        Err(SymFault::NoTable) => out.extend_from_slice(b"[]"),
        Err(SymFault::BadTable) => out.extend_from_slice(b"null"),
        Err(SymFault::Memory) => Err(AllocError),
    }
}

/// Appends the name of a kind, or `null`.
#[tactic(auto, unfolding(crate::specs::Facts::library_value))]
pub(crate) fn push_library<A: Allocator>(
    out: &mut Vec<u8, A>,
    library: Option<Kind>,
) -> Result<(), AllocError>
    ensures { OnOk result (out.new.items ≡ out.old.items ++ library_value library) }
{
    match library {
        None => out.extend_from_slice(b"null"),
        Some(kind) => push_name(out, kind.name()),
    }
}
