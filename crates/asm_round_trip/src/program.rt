//! The listing of a program.

ghost use Rattle.std.specs.Prelude.{◌≡◌, IfOk, string_bytes};
ghost use Rattle.asm_assemble.specs.Program.{text_start};
ghost use Rattle.isa_disasm.specs.Listing.{listing};

use asm_assemble::{Program, TEXT_BASE};
use isa_disasm::push_listing;
use std::alloc::{AllocError, Allocator};

// Room for one line, in bytes; most lines fit. The listing of a large program is then seldom
// reallocated.
const LINE_ROOM: usize = 48;

/// The listing of a program's text: a line for each word, and for each byte after the last whole
/// word. Fails when out of memory.
pub fn list<A: Allocator + Copy>(alloc: A, program: &Program<A>) -> Result<String<A>, AllocError>
    ensures { IfOk result (λ text. string_bytes text ≡ listing text_start program.now.text) }
{
    let bytes = program.text();
    let mut text = String::with_capacity(alloc, bytes.len() / 4 * LINE_ROOM)?;
    push_listing(&mut text, u64::from(TEXT_BASE), bytes)?;
    Ok(text)
}
