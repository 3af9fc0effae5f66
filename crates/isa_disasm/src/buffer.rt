//! The text of one line, built on the stack.

ghost use Rattle.std.specs.Prelude.{◌≡◌, ◌+◌, ◌≤◌, ◌<◌, ◌++◌, ℕ, List, [], ◌∷◌, length, take, false};
ghost use Rattle.std.specs.Str.{IsAscii, IsUtf8};
ghost use Rattle.std.specs.Fmt.{decimal, digit_glyph, digits, signed_decimal};
ghost use Rattle.isa_table.specs.Signed.{signed_of};
ghost use Rattle.isa_names.specs.Digits.{word_text};
ghost use Rattle.isa_names.specs.Names.{abi, set_name};

use crate::digits::{digit_of, digits_of};
use isa_names::{abi_name, accesses_name};
use isa_table::{FenceSet, Immediate12, Reg, ShiftAmount, UpperImmediate};
use std::marker::Model;
use std::str;

/// The text of one line, at most 64 bytes. A line is built here and then appended to a text at
/// once, since each append asks for room.
#[derive(Drop)]
pub struct LineBuffer {
    bytes: [u8; 64],
    length: usize,
}

impl Model for LineBuffer {
    ghost Value = { List ℕ };

    ghost view = { λ b. take b.length b.bytes };

    ghost invariant = { λ b. (b.length ≤ 64) × IsUtf8 (take b.length b.bytes) };
}

impl LineBuffer {
    /// The empty line.
    pub fn new() -> LineBuffer
        ensures { result ≡ [] }
    {
        LineBuffer {
            bytes: [0; 64],
            length: 0,
        }
    }

    /// Makes the line empty.
    pub fn clear(&mut self)
        ensures { self.new ≡ [] }
    {
        self.length = 0;
    }

    /// The line as a text.
    pub fn as_str(&self) -> &str
        ensures { result.now ≡ self.now }
    {
        let line = &self.bytes[..self.length];
        // SAFETY: a line is appended to by texts alone.
        unsafe { str::from_utf8_unchecked(line) }
    }

    /// Appends a text. The line has room for it.
    #[inline(always)]
    pub fn push(&mut self, text: &str)
        requires room { length self.old + length text.now ≤ 64 }
        ensures value { self.new ≡ self.old ++ text.now }
        ensures grown { length self.new ≡ length self.old + length text.now }
    {
        let end = self.length + text.len();
        self.bytes[self.length..end].copy_from_slice(text.as_bytes());
        self.length = end;
    }

    // Appends a text of two to four bytes: its first two and its last two, which may be the same. A
    // copy of a length that is known only when it runs is a call.
    #[inline(always)]
    fn push_short(&mut self, text: &str)
        requires some { 2 ≤ length text.now }
        requires few { length text.now ≤ 4 }
        requires room { length self.old + 4 ≤ 64 }
        ensures { self.new ≡ self.old ++ text.now }
    {
        let bytes = text.as_bytes();
        let (start, end) = (self.length, self.length + bytes.len());
        self.bytes[start..start + 2].copy_from_slice(&bytes[..2]);
        self.bytes[end - 2..end].copy_from_slice(&bytes[bytes.len() - 2..]);
        self.length = end;
    }

    /// Appends the ABI name of a register.
    #[tactic(auto, using(crate::proofs::NameLemmas::abi_short, crate::proofs::NameLemmas::abi_some))]
    #[inline(always)]
    pub fn push_register(&mut self, register: Reg)
        requires room { length self.old + 4 ≤ 64 }
        ensures value { self.new ≡ self.old ++ abi register }
        ensures short { length self.new ≤ length self.old + 4 }
    {
        self.push_short(abi_name(register));
    }

    /// Appends the letters of a set of accesses.
    #[inline(always)]
    #[tactic(auto, using(crate::proofs::NameLemmas::set_short))]
    pub fn push_set(&mut self, set: FenceSet)
        requires room { length self.old + 4 ≤ 64 }
        ensures value { self.new ≡ self.old ++ set_name set }
        ensures short { length self.new ≤ length self.old + 4 }
    {
        self.push(accesses_name(set));
    }

    /// Appends the eight hexadecimal digits of a word.
    #[tactic(auto, using(crate::proofs::DigitLemmas::word_is_ascii, crate::proofs::DigitLemmas::length_word))]
    #[inline(always)]
    pub fn push_word(&mut self, word: u32)
        requires room { length self.old + 8 ≤ 64 }
        ensures value { self.new ≡ self.old ++ word_text word }
        ensures grown { length self.new ≡ length self.old + 8 }
    {
        self.push(ascii(&digits_of(word)));
    }

    // Appends a number in decimal.
    #[tactic(auto, using(crate::proofs::DigitLemmas::decimal_one, crate::proofs::DigitLemmas::decimal_more, crate::proofs::DigitLemmas::length_decimal_one, crate::proofs::DigitLemmas::length_decimal_more))]
    fn push_decimal(&mut self, number: u32)
        requires room { length self.old + length (decimal number) ≤ 64 }
        ensures value { self.new ≡ self.old ++ decimal number }
    {
        if number < 10 {
            self.push_digit(number);
        } else {
            self.push_decimal(number / 10);
            self.push_digit(number % 10);
        }
    }

    /// Appends an immediate as a signed number.
    pub fn push_immediate(&mut self, immediate: Immediate12)
        requires room { length self.old + 5 ≤ 64 }
        ensures value { self.new ≡ self.old ++ signed_decimal (signed_of immediate) }
        ensures short { length self.new ≤ length self.old + 5 }
    {
        let word = immediate.word();
        if word < 0x800 {
            self.push_decimal(word);
        } else {
            self.push("-");
            self.push_decimal(u32::MAX - word + 1);
        }
    }

    /// Appends a shift amount in decimal.
    #[tactic(auto, using(crate::proofs::DigitLemmas::amount_short))]
    pub fn push_amount(&mut self, amount: ShiftAmount)
        requires room { length self.old + 2 ≤ 64 }
        ensures value { self.new ≡ self.old ++ decimal amount }
        ensures short { length self.new ≤ length self.old + 2 }
    {
        self.push_decimal(u32::from(amount.count()));
    }

    /// Appends the immediate of LUI and AUIPC in hexadecimal, without leading zeros.
    #[tactic(auto, using(crate::proofs::DigitLemmas::upper_short))]
    pub fn push_upper_immediate(&mut self, immediate: UpperImmediate)
        requires room { length self.old + 5 ≤ 64 }
        ensures value { self.new ≡ self.old ++ digits 16 false immediate }
        ensures short { length self.new ≤ length self.old + 5 }
    {
        self.push_hexadecimal(immediate.high());
    }

    // Appends a number in hexadecimal, without leading zeros.
    #[tactic(auto, using(crate::proofs::DigitLemmas::hex_one, crate::proofs::DigitLemmas::hex_more, crate::proofs::DigitLemmas::length_hex_one, crate::proofs::DigitLemmas::length_hex_more))]
    fn push_hexadecimal(&mut self, number: u32)
        requires room { length self.old + length (digits 16 false number) ≤ 64 }
        ensures value { self.new ≡ self.old ++ digits 16 false number }
    {
        if number < 16 {
            self.push_digit(number);
        } else {
            self.push_hexadecimal(number / 16);
            self.push_digit(number % 16);
        }
    }

    // Appends the lower-case digit of a number below 16.
    #[tactic(auto, using(crate::proofs::DigitLemmas::digit_is_ascii))]
    #[inline(always)]
    fn push_digit(&mut self, number: u32)
        requires small { number < 16 }
        requires room { length self.old + 1 ≤ 64 }
        ensures value { self.new ≡ self.old ++ digit_glyph false number ∷ [] }
    {
        self.push(ascii(&[digit_of(number)]));
    }
}

// ASCII bytes as a text.
#[inline(always)]
fn ascii(bytes: &[u8]) -> &str
    requires { IsAscii bytes.now }
    ensures { result.now ≡ bytes.now }
{
    // SAFETY: ASCII is UTF-8.
    unsafe { str::from_utf8_unchecked(bytes) }
}
