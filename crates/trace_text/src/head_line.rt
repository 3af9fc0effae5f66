//! The head line of a trace.

ghost use Rattle.std.specs.Prelude.{◌≡◌, ◌++◌, ◌∷◌, [], codes, decimal, map, OnOk};
ghost use Rattle.trace_text.specs.Composites.{member, array};
ghost use Rattle.trace_text.specs.Head.{hart_object, head_line, head_object, symbol_object, then_of};

use crate::array::push_numbers;
use crate::harts::push_harts;
use crate::head::{HartThen, Span};
use crate::scalar::push_number;
use crate::symbols::push_symbols;
use elf_read::Symbol;
use std::alloc::{AllocError, Allocator};

// Appends what the trace is of: its version, where the program begins, and the inputs.
#[tactic(auto, unfolding(crate::specs::Composites::member))]
fn push_run<A: Allocator>(
    out: &mut Vec<u8, A>,
    entry: u32,
    inputs: &[u32],
) -> Result<(), AllocError>
    ensures { OnOk result (out.new.items ≡ out.old.items ++ 123 ∷ (member (codes "trace") (codes "1")
        ++ 44 ∷ (member (codes "entry") (decimal entry)
        ++ 44 ∷ member (codes "inputs") (array (map decimal inputs.now))))) }
{
    out.extend_from_slice(b"{\"trace\":1,\"entry\":")?;
    push_number(out, u64::from(entry))?;
    out.extend_from_slice(b",\"inputs\":")?;
    push_numbers(out, inputs)
}

// Appends which choices are told.
#[tactic(auto, unfolding(crate::specs::Composites::member))]
fn push_span<A: Allocator>(out: &mut Vec<u8, A>, span: Span) -> Result<(), AllocError>
    ensures { OnOk result (out.new.items ≡ out.old.items
        ++ 44 ∷ (member (codes "from") (decimal span.from) ++ 44 ∷ member (codes "to") (decimal span.to))) }
{
    out.extend_from_slice(b",\"from\":")?;
    push_number(out, span.from)?;
    out.extend_from_slice(b",\"to\":")?;
    push_number(out, span.to)
}

// Appends the symbols and the harts, and the closing brace.
#[tactic(auto, unfolding(crate::specs::Composites::member))]
fn push_lists<A: Allocator>(
    out: &mut Vec<u8, A>,
    symbols: &[Symbol<A>],
    harts: &[HartThen],
) -> Result<(), AllocError>
    ensures { OnOk result (out.new.items ≡ out.old.items
        ++ 44 ∷ (member (codes "symbols") (array (map symbol_object symbols.now))
        ++ 44 ∷ (member (codes "harts") (array (map hart_object (map then_of harts.now))) ++ 125 ∷ []))) }
{
    out.extend_from_slice(b",\"symbols\":")?;
    push_symbols(out, symbols)?;
    out.extend_from_slice(b",\"harts\":")?;
    push_harts(out, harts)?;
    out.extend_from_slice(b"}")
}

// Appends the object that stands before the lines of choices.
#[tactic(auto, unfolding(crate::specs::Head::head_object))]
fn push_object<A: Allocator>(
    out: &mut Vec<u8, A>,
    entry: u32,
    inputs: &[u32],
    span: Span,
    symbols: &[Symbol<A>],
    harts: &[HartThen],
) -> Result<(), AllocError>
    ensures { OnOk result (out.new.items ≡ out.old.items
        ++ head_object entry inputs.now span symbols.now (map then_of harts.now)) }
{
    push_run(out, entry, inputs)?;
    push_span(out, span)?;
    push_lists(out, symbols, harts)
}

/// Appends the head line of a trace: where the program begins, a byte address, each hart's input,
/// which choices are told, the symbols of the file, and the harts as they are before the first
/// choice that is told.
#[tactic(auto, unfolding(crate::specs::Head::head_line))]
pub fn push_head<A: Allocator>(
    out: &mut Vec<u8, A>,
    entry: u32,
    inputs: &[u32],
    span: Span,
    symbols: &[Symbol<A>],
    harts: &[HartThen],
) -> Result<(), AllocError>
    ensures { OnOk result (out.new.items ≡ out.old.items
        ++ head_line entry inputs.now span symbols.now (map then_of harts.now)) }
{
    push_object(out, entry, inputs, span, symbols, harts)?;
    out.push(b'\n')?;
    Ok(())
}
