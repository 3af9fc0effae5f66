//! The mark under a part of a line.

ghost use Rattle.std.specs.Prelude.{◌≡◌, ◌++◌, ◌∷◌, [], OnOk, string_bytes};
ghost use Rattle.std.specs.List.{flat_map};
ghost use Rattle.hint_text.specs.Mark.{pad, room_before};

use std::alloc::{AllocError, Allocator};

// The sign of a mark.
const SIGN: char = '^';

// Appends the padding under one byte of a line: a tab under a tab, nothing under a UTF-8
// continuation byte, else a space.
fn push_pad<A: Allocator>(text: &mut String<A>, byte: u8) -> Result<(), AllocError>
    ensures { OnOk result (string_bytes text.new ≡ string_bytes text.old ++ pad byte) }
{
    match byte {
        b'\t' => text.push('\t'),
        0x80..=0xbf => Ok(()),
        _ => text.push(' '),
    }
}

// Appends the padding under bytes of a line.
fn push_pads<A: Allocator>(text: &mut String<A>, bytes: &[u8]) -> Result<(), AllocError>
    ensures { OnOk result (string_bytes text.new ≡ string_bytes text.old ++ flat_map pad bytes.now) }
{
    'bytes: for byte in bytes {
        push_pad(text, *byte)?;
    }
    Ok(())
}

/// Appends a line that marks what begins at the byte `start` of another one: padding as wide as
/// that line before it, with tabs under tabs, and then `^`.
pub fn push_mark<A: Allocator>(
    text: &mut String<A>,
    line: &str,
    start: usize,
) -> Result<(), AllocError>
    ensures { OnOk result (string_bytes text.new
        ≡ (string_bytes text.old ++ room_before line.now start) ++ 94 ∷ []) }
{
    let bytes = line.as_bytes();
    let (before, _) = bytes.split_at(start.min(bytes.len()));
    push_pads(text, before)?;
    text.push(SIGN)
}
