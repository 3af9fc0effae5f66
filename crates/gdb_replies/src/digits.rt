//! Bytes, words and numbers as hexadecimal digits.
ghost use Rattle.std.specs.Prelude.{◌≡◌, ◌++◌, OnOk, OnErr};
ghost use Rattle.gdb_frames.specs.Frames.{two_digits};
ghost use Rattle.gdb_replies.specs.Fronts.{BeginsWith};
ghost use Rattle.gdb_replies.specs.Digits.{bytes_text, number_text, low_first_text};

use gdb_frames::hex_digit;
use std::alloc::{AllocError, Allocator};

/// Appends the two digits of a byte.
pub fn push_byte<A: Allocator>(out: &mut Vec<u8, A>, byte: u8) -> Result<(), AllocError>
    ensures ok { OnOk result (out.new.items ≡ out.old.items ++ two_digits byte) }
    ensures kept { OnErr result (BeginsWith out.new.items out.old.items) }
{
    out.push(hex_digit(byte / 16))?;
    out.push(hex_digit(byte % 16))?;
    Ok(())
}

/// Appends the digits of bytes: of memory, or of a text that GDB takes in digits.
pub fn push_bytes<A: Allocator>(out: &mut Vec<u8, A>, bytes: &[u8]) -> Result<(), AllocError>
    ensures ok { OnOk result (out.new.items ≡ out.old.items ++ bytes_text bytes.now) }
    ensures kept { OnErr result (BeginsWith out.new.items out.old.items) }
{
    'bytes: for byte in bytes {
        push_byte(out, *byte)?;
    }
    Ok(())
}

/// Appends the eight digits of a word: those of its bytes, the lowest first.
pub fn push_word<A: Allocator>(out: &mut Vec<u8, A>, word: u32) -> Result<(), AllocError>
    ensures ok { OnOk result (out.new.items ≡ out.old.items ++ low_first_text word) }
    ensures kept { OnErr result (BeginsWith out.new.items out.old.items) }
{
    push_bytes(out, &word.to_le_bytes())
}

/// Appends a number without leading zeros.
#[tactic(auto, using(crate::proofs::NumberLemmas::number_one))]
pub fn push_number<A: Allocator>(out: &mut Vec<u8, A>, number: u64) -> Result<(), AllocError>
    ensures ok { OnOk result (out.new.items ≡ out.old.items ++ number_text number) }
    ensures kept { OnErr result (BeginsWith out.new.items out.old.items) }
{
    if number < 16 {
        out.push(hex_digit(number as u8))?;
        return Ok(());
    }
    push_number(out, number / 16)?;
    out.push(hex_digit((number % 16) as u8))?;
    Ok(())
}
