//! The lines of words of memory.
ghost use Rattle.std.specs.Prelude.{◌≡◌, ◌<◌, ◌≤◌, ◌%◌, ◌++◌, OnOk, IfOk, string_bytes};
ghost use Rattle.std.specs.Option.{is_some};
ghost use Rattle.debug_text.specs.Texts.{is_mapped_word, cell_text, cell_entry, cells_text};

use debug_session::word_at;
use isa_names::Word;
use mem_store::Store;
use std::alloc::{AllocError, Allocator};

// Whether the four bytes from an aligned address on are mapped.
fn is_mapped_word<S: Store>(store: &S, address: u32) -> bool
    requires { address % 4 ≡ 0 }
    ensures { result ≡ is_mapped_word (S.memory store.now) address }
{
    is_mapped(store, address)
        && is_mapped(store, address + 1)
        && is_mapped(store, address + 2)
        && is_mapped(store, address + 3)
}

// Whether a byte is mapped.
fn is_mapped<S: Store>(store: &S, address: u32) -> bool
    ensures { result ≡ is_some ((S.memory store.now).rights address) }
{
    store.peek(address).is_some()
}

// Appends the line of the word at an aligned address.
fn push_cell<S: Store, A: Allocator>(
    text: &mut String<A>,
    store: &S,
    address: u32,
) -> Result<(), AllocError>
    requires { address % 4 ≡ 0 }
    ensures { OnOk result (string_bytes text.new
        ≡ string_bytes text.old ++ cell_entry (S.memory store.now) address) }
{
    let name = Word(address);
    if is_mapped_word(store, address) {
        let word = Word(word_at(store, address));
        writeln!(text, "{name} {word}")?;
    } else {
        writeln!(text, "{name} --------")?;
    }
    Ok(())
}

/// The lines of words from an aligned address on; after the last address follows address 0.
#[tactic(auto, using(crate::proofs::TextLemmas::cells_more, crate::proofs::TextLemmas::cells_end))]
pub fn cells_text<S: Store, A: Allocator>(
    alloc: A,
    store: &S,
    address: u32,
    count: u64,
) -> Result<String<A>, AllocError>
    requires { address % 4 ≡ 0 }
    ensures { IfOk result (λ text. string_bytes text
        ≡ cells_text (S.memory store.now) address count) }
{
    let mut text = String::new(alloc);
    let mut place = address;
    'cells: for _ in 0..count {
        push_cell(&mut text, store, place)?;
        place = place.wrapping_add(4);
    }
    Ok(text)
}
