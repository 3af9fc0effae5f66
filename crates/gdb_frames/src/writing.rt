//! Framing of a text.
ghost use Rattle.std.specs.Prelude.{◌≡◌, ◌++◌, OnOk};
ghost use Rattle.gdb_frames.specs.Frames.{escape_of, escaped, framed, is_special, two_digits};

use crate::digits::hex_digit;
use crate::sum::checksum;
use std::alloc::{AllocError, Allocator};

// Whether a byte has to be escaped in an answer: `#`, `$`, `*` (it would repeat the byte before it)
// or `}`.
fn is_special(byte: u8) -> bool
    ensures { result ≡ is_special byte }
{
    matches!(byte, b'#' | b'$' | b'*' | b'}')
}

// Appends a byte, escaped if it is special.
fn push_escape<A: Allocator>(out: &mut Vec<u8, A>, byte: u8) -> Result<(), AllocError>
    ensures { OnOk result (out.new.items ≡ out.old.items ++ escape_of byte) }
{
    if is_special(byte) {
        out.push(b'}')?;
        out.push(byte ^ 0x20)?;
        return Ok(());
    }
    out.push(byte)?;
    Ok(())
}

// Appends a text with its special bytes escaped.
fn push_escaped<A: Allocator>(out: &mut Vec<u8, A>, text: &[u8]) -> Result<(), AllocError>
    ensures { OnOk result (out.new.items ≡ out.old.items ++ escaped text.now) }
{
    'bytes: for byte in text {
        push_escape(out, *byte)?;
    }
    Ok(())
}

// Appends the two digits of a byte.
fn push_digits<A: Allocator>(out: &mut Vec<u8, A>, byte: u8) -> Result<(), AllocError>
    ensures { OnOk result (out.new.items ≡ out.old.items ++ two_digits byte) }
{
    out.push(hex_digit(byte / 16))?;
    out.push(hex_digit(byte % 16))?;
    Ok(())
}

/// Appends a packet whose data is a text, with its special bytes escaped. If the host refuses
/// memory, a part of it may have been appended.
pub fn push_framed<A: Allocator>(out: &mut Vec<u8, A>, text: &[u8]) -> Result<(), AllocError>
    ensures { OnOk result (out.new.items ≡ out.old.items ++ framed text.now) }
{
    out.push(b'$')?;
    let begin = out.len();
    push_escaped(out, text)?;
    let sum = checksum(&out[begin..]);
    out.push(b'#')?;
    push_digits(out, sum)
}
