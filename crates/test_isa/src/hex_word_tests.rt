//! The printed digits of words and bytes.
use isa_names::{Byte, Word};
use std::alloc::{AllocError, Allocator};

// Whether a word is printed as this text.
fn is_word<A: Allocator + Copy>(alloc: A, word: u32, wanted: &str) -> Result<bool, AllocError> {
    let word = Word(word);
    let text = format!(in alloc; "{word}")?;
    Ok(text.as_str() == wanted)
}

// Whether a byte is printed as this text.
fn is_byte<A: Allocator + Copy>(alloc: A, byte: u8, wanted: &str) -> Result<bool, AllocError> {
    let byte = Byte(byte);
    let text = format!(in alloc; "{byte}")?;
    Ok(text.as_str() == wanted)
}

#[test]
fn words_have_eight_digits(rt: HostRuntime) {
    for (word, wanted) in [
        (0, "00000000"),
        (0x13, "00000013"),
        (0xdead_beef, "deadbeef"),
        (0xffff_ffff, "ffffffff"),
    ] {
        assert!(rt; is_word(rt.alloc(), word, wanted) == Ok(true), "{wanted}");
    }
}

#[test]
fn bytes_have_two_digits(rt: HostRuntime) {
    for (byte, wanted) in [(0, "00"), (0x0a, "0a"), (0xff, "ff")] {
        assert!(rt; is_byte(rt.alloc(), byte, wanted) == Ok(true), "{wanted}");
    }
}
