//! All registers.
ghost use Rattle.std.specs.Prelude.{◌≡◌, ◌++◌, OnOk, OnErr};
ghost use Rattle.gdb_replies.specs.Fronts.{BeginsWith};
ghost use Rattle.gdb_replies.specs.Digits.{registers_text, words_text};

use crate::digits::push_word;
use std::alloc::{AllocError, Allocator};

// Appends words.
fn push_words<A: Allocator>(out: &mut Vec<u8, A>, words: &[u32]) -> Result<(), AllocError>
    ensures ok { OnOk result (out.new.items ≡ out.old.items ++ words_text words.now) }
    ensures kept { OnErr result (BeginsWith out.new.items out.old.items) }
{
    'words: for word in words {
        push_word(out, *word)?;
    }
    Ok(())
}

/// Appends the registers `x0` to `x31` and `pc`.
pub fn push_registers<A: Allocator>(
    out: &mut Vec<u8, A>,
    registers: &[u32; 32],
    pc: u32,
) -> Result<(), AllocError>
    ensures ok { OnOk result (out.new.items ≡ out.old.items ++ registers_text registers.now pc) }
    ensures kept { OnErr result (BeginsWith out.new.items out.old.items) }
{
    push_words(out, registers)?;
    push_word(out, pc)
}
