//! Strings. RFC 8259, section 7.

ghost use Rattle.std.specs.Prelude.{◌≡◌, ◌++◌, ◌<◌, OnOk};
ghost use Rattle.std.specs.Char.{digit_char};
ghost use Rattle.json.specs.Print.{escape, escape_byte, quoted};

use std::alloc::{AllocError, Allocator};

// The lower-case hexadecimal digit of a number below 16.
fn digit_of(number: u8) -> u8
    requires { number < 16 }
    ensures { result ≡ digit_char number }
{
    match number {
        0..=9 => b'0' + number,
        _ => b'a' + (number - 10),
    }
}

// Appends what stands in a string for a byte: itself, but for the quote, the backslash and the
// control characters, which have to be escaped.
#[tactic(auto, unfolding(json::specs::Print::escape_byte))]
fn push_byte<A: Allocator>(out: &mut Vec<u8, A>, byte: u8) -> Result<(), AllocError>
    ensures { OnOk result (out.new.items ≡ out.old.items ++ escape_byte byte) }
{
    match byte {
        b'"' => out.extend_from_slice(b"\\\""),
        b'\\' => out.extend_from_slice(b"\\\\"),
        8 => out.extend_from_slice(b"\\b"),
        b'\t' => out.extend_from_slice(b"\\t"),
        b'\n' => out.extend_from_slice(b"\\n"),
        12 => out.extend_from_slice(b"\\f"),
        b'\r' => out.extend_from_slice(b"\\r"),
        0..=31 => {
            let digits = [
                b'\\',
                b'u',
                b'0',
                b'0',
                digit_of(byte / 16),
                digit_of(byte % 16),
            ];
            out.extend_from_slice(&digits)
        }
        _ => {
            out.push(byte)?;
            Ok(())
        }
    }
}

// Appends what stands in a string for some bytes.
fn push_escaped<A: Allocator>(out: &mut Vec<u8, A>, bytes: &[u8]) -> Result<(), AllocError>
    ensures { OnOk result (out.new.items ≡ out.old.items ++ escape bytes.now) }
{
    'bytes: for byte in bytes {
        push_byte(out, *byte)?;
    }
    Ok(())
}

/// Appends a string: the text between quotes. In it the quote and the backslash stand behind a
/// backslash, the control characters U+0000 to U+001F have their short escapes where there are
/// such, and else `\u` and four digits; all others stand as they are.
pub fn push_string<A: Allocator>(out: &mut Vec<u8, A>, text: &str) -> Result<(), AllocError>
    ensures { OnOk result (out.new.items ≡ out.old.items ++ quoted text.now) }
{
    out.push(b'"')?;
    push_escaped(out, text.as_bytes())?;
    out.push(b'"')?;
    Ok(())
}
