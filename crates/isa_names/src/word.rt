//! Words and bytes as hexadecimal digits.

ghost use Rattle.std.specs.Prelude.{◌≡◌, ◌<◌, Some, false};
ghost use Rattle.std.specs.Fmt.{digit_glyph};
ghost use Rattle.std.specs.Str.{IsAscii};
ghost use Rattle.isa_names.specs.Digits.{word_text, byte_text};

use std::{fmt, str};

// The lower-case digit of a number below 16.
fn digit_of(number: u32) -> u8
    requires { number < 16 }
    ensures { result ≡ digit_glyph false number }
{
    match number {
        0..=9 => b'0' + number as u8,
        _ => b'a' + (number - 10) as u8,
    }
}

// The eight digits of a word.
#[tactic(auto, using(crate::proofs::WordLemmas::digit_step), unfolding(crate::specs::Digits::word_text))]
fn digits_of(word: u32) -> [u8; 8]
    ensures { result ≡ word_text word }
{
    let mut digits = [b'0'; 8];
    let mut rest = word;
    'places: for place in (0..8).rev() {
        digits[place] = digit_of(rest % 16);
        rest /= 16;
    }
    digits
}

// ASCII bytes as a text.
fn ascii(bytes: &[u8]) -> &str
    requires { IsAscii bytes.now }
    ensures { result.now ≡ bytes.now }
{
    // SAFETY: ASCII is UTF-8.
    unsafe { str::from_utf8_unchecked(bytes) }
}

/// A word or an address, displayed as eight lower-case hexadecimal digits.
#[derive(Clone, Copy)]
pub struct Word(pub u32);

impl fmt::Display for Word {
    ghost output = { λ w. Some (word_text w.0) };

    #[tactic(auto, using(crate::proofs::WordLemmas::word_is_ascii))]
    fn fmt<W: fmt::Write>(&self, f: &mut fmt::Formatter<W>) -> fmt::Result {
        f.write_str(ascii(&digits_of(self.0)))
    }
}

/// A byte, displayed as two lower-case hexadecimal digits.
#[derive(Clone, Copy)]
pub struct Byte(pub u8);

impl fmt::Display for Byte {
    ghost output = { λ b. Some (byte_text b.0) };

    fn fmt<W: fmt::Write>(&self, f: &mut fmt::Formatter<W>) -> fmt::Result {
        let byte = self.0;
        write!(f, "{byte:02x}")
    }
}
