//! The listing of a program, as a source.

ghost use Rattle.std.specs.Prelude.{◌≡◌, ◌≤◌, ◌^◌, [], ◌∷◌, length, Ok, IfOk, string_bytes};
ghost use Rattle.asm_assemble.specs.Sources.{assembled_texts};
ghost use Rattle.asm_assemble.specs.Program.{text_start};
ghost use Rattle.isa_disasm.specs.Listing.{listing};
ghost use Rattle.asm_round_trip.specs.TextAlone.{text_alone};

use crate::laws::a_listing_is_its_source;
use crate::program::list;
use asm_assemble::Program;
use std::alloc::{AllocError, Allocator};

// Applies the law to these bytes; does nothing at run time.
fn comes_back(bytes: &[u8], source: &str)
    requires lines { source.now ≡ listing text_start bytes.now }
    requires within { length bytes.now ≤ 2 ^ 24 }
    ensures { assembled_texts (source.now ∷ []) ≡ Ok (text_alone bytes.now) }
{
    a_listing_is_its_source();
}

/// The listing of a program's text. As the only source it assembles to a program of the same text,
/// without data, zeros and symbols. Fails when out of memory.
pub fn list_source<A: Allocator + Copy>(
    alloc: A,
    program: &Program<A>,
) -> Result<String<A>, AllocError>
    ensures back { IfOk result (λ source. assembled_texts (string_bytes source ∷ []) ≡ Ok (text_alone program.now.text)) }
    ensures lines { IfOk result (λ source. string_bytes source ≡ listing text_start program.now.text) }
{
    let source = list(alloc, program)?;
    comes_back(program.text(), &source);
    Ok(source)
}
