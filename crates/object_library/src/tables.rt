//! The instructions of the objects.
ghost use Rattle.std.specs.Prelude.{◌≡◌, true, List, map, Some, IfOk, is_some};
ghost use Rattle.std.specs.List.{list_all};
ghost use Rattle.isa_table.specs.Decoded.{decoded};
ghost use Rattle.object_library.specs.Images.{words_of};

use crate::entry::words;
use crate::kind::Kind;
use isa_decode::decode;
use isa_table::Instr;
use std::alloc::{AllocError, Allocator};

// The instructions of words.
#[tactic(auto, using(crate::proofs::TableLemmas::passes))]
fn decoded_words<A: Allocator>(alloc: A, words: &[u32]) -> Result<Vec<Instr, A>, AllocError>
    requires { list_all (λ w. is_some (decoded w)) words.now ≡ true }
    ensures { IfOk result (λ table. map (λ i. Some i) table.items ≡ map decoded words.now) }
{
    let mut table = Vec::with_capacity(alloc, words.len())?;
    'words: for word in words {
        match decode(*word) {
            Some(instr) => table.push(instr)?,
            None => unreachable!(),
        }
    }
    Ok(table)
}

/// The instructions of an object, in order; instruction i is at 0x00010000 + 4i. Fails when out of
/// memory.
#[tactic(auto, using(crate::proofs::TableLemmas::all_decode))]
pub fn table<A: Allocator>(alloc: A, kind: Kind) -> Result<Vec<Instr, A>, AllocError>
    ensures { IfOk result (λ table. map (λ i. Some i) table.items ≡ map decoded (words_of kind)) }
{
    decoded_words(alloc, words(kind))
}
