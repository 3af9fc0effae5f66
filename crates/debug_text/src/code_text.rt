//! The lines of the instructions around a hart's `pc`.
ghost use Rattle.std.specs.Prelude.{◌≡◌, ◌++◌, ◌==◌, None, OnOk, IfOk, option_map, string_bytes};
ghost use Rattle.elf_read.specs.Label.{nearest_label};
ghost use Rattle.hart_step.specs.Hart.{hart_of};
ghost use Rattle.debug_text.specs.Code.{pc_mark, is_plain_name, tag_text, code_line, code_from, code_text};

use crate::steps_text::EventText;
use debug_session::Event;
use elf_read::{Symbol, nearest_label};
use hart_step::Hart;
use isa_names::Word;
use mem_store::Store;
use outcome::EndLine;
use std::alloc::{AllocError, Allocator};

// Number of bytes from the first word that is shown to the hart's own.
const BEFORE: u32 = 20;

// Number of words, of which the hart's own is in the middle.
const WORDS: u32 = 11;

// What stands before an address.
fn pc_mark(is_pc: bool) -> &'static str
    ensures { result.now ≡ pc_mark is_pc }
{
    if is_pc { "=> " } else { "   " }
}

// Whether a name has no control characters.
fn is_plain_name(name: &str) -> bool
    ensures { result ≡ is_plain_name name.now }
{
    name.as_bytes().iter().all(|byte| *byte >= b' ')
}

// Appends how far an address is behind its label, if it has one with a plain name.
#[tactic(auto, unfolding(crate::specs::Code::tag_text))]
fn push_tag<A: Allocator, B: Allocator>(
    text: &mut String<A>,
    label: Option<&Symbol<B>>,
    address: u32,
) -> Result<(), AllocError>
    ensures { OnOk result (string_bytes text.new
        ≡ string_bytes text.old ++ tag_text (option_map (λ s. s.now) label.entry) address) }
{
    let Some(label) = label else {
        return Ok(());
    };
    let name = label.name.as_str();
    if !is_plain_name(name) {
        return Ok(());
    }
    match address.saturating_sub(label.address) {
        0 => write!(text, " <{name}>"),
        distance => write!(text, " <{name}+{distance}>"),
    }
}

// Appends the line of an address, if it is the `pc` or its word may be executed.
#[tactic(auto, unfolding(crate::specs::Code::code_line))]
fn push_line<S: Store, A: Allocator, B: Allocator>(
    text: &mut String<A>,
    symbols: &[Symbol<B>],
    store: &S,
    pc: u32,
    address: u32,
) -> Result<(), AllocError>
    ensures { OnOk result (string_bytes text.new
        ≡ string_bytes text.old ++ code_line symbols.now (S.memory store.now) pc address) }
{
    let is_pc = address == pc;
    let event = match store.fetch(address) {
        Some(word) => Event::Word(word),
        None if is_pc => Event::NoFetch,
        None => return Ok(()),
    };
    let (mark, shown) = (pc_mark(is_pc), Word(address));
    write!(text, "{mark}{shown}")?;
    push_tag(text, nearest_label(symbols, address), address)?;
    let event = EventText { event, pc: address };
    writeln!(text, " {event}")?;
    Ok(())
}

/// The line of a hart's end, and those of the instructions around its `pc`, with the labels before
/// them; words that may not be executed are left out, but for that at the `pc`.
#[tactic(auto, using(crate::proofs::TextLemmas::code_more, crate::proofs::TextLemmas::code_end), unfolding(crate::specs::Code::code_text))]
pub fn code_text<S: Store, A: Allocator, B: Allocator>(
    alloc: A,
    symbols: &[Symbol<B>],
    store: &S,
    number: usize,
    hart: &Hart,
) -> Result<String<A>, AllocError>
    ensures { IfOk result (λ text. string_bytes text
        ≡ code_text symbols.now (S.memory store.now) number (hart_of hart.now)) }
{
    let mut text = String::new(alloc);
    let end = EndLine {
        number,
        hart: *hart,
    };
    writeln!(text, "{end}")?;
    let mut place = hart.pc.wrapping_sub(BEFORE);
    'words: for _ in 0..WORDS {
        push_line(&mut text, symbols, store, hart.pc, place)?;
        place = place.wrapping_add(4);
    }
    Ok(text)
}
