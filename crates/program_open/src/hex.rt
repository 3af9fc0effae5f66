//! Programs as texts of hexadecimal words.

ghost use Rattle.std.specs.Prelude.{◌≡◌, ◌≢◌, ◌≤◌, ◌<◌, ◌^◌, IfOk, IfErr, IfSome, vec_len};
ghost use Rattle.program_open.specs.HexText.{hex_digit_of, most_words, hex_word, hex_words};

use std::alloc::Allocator;
use text_items::next_item;
use thiserror::Error;

/// The greatest number of words.
pub const MOST_WORDS: usize = 2048;

// Number of digits of a word.
const DIGITS: usize = 8;

/// Why a text gives no words: the number of the first bad item, counted from 0, or out of memory.
#[derive(Clone, Copy, Debug, PartialEq, Eq, Error)]
pub enum HexFault {
    /// This item isn't eight hexadecimal digits.
    #[error("hex fault BadWord at {0}")]
    BadWord(usize),
    /// This item comes after `MOST_WORDS` words, whatever it is.
    #[error("hex fault TooMany at {0}")]
    TooMany(usize),
    /// Out of memory.
    #[error("out of memory")]
    Memory,
}

// The value of a hexadecimal digit of either case.
fn hex_digit(byte: u8) -> Option<u8>
    ensures value { result ≡ hex_digit_of byte }
    ensures small { IfSome result (λ digit. digit < 16) }
{
    match byte {
        b'0'..=b'9' => Some(byte - b'0'),
        b'A'..=b'F' => Some(byte - b'A' + 10),
        b'a'..=b'f' => Some(byte - b'a' + 10),
        _ => None,
    }
}

// The word that eight hexadecimal digits write.
fn read_word(item: &[u8]) -> Option<u32>
    ensures { result ≡ hex_word item.now }
{
    if item.len() != DIGITS {
        return None;
    }
    let mut word = 0u32;
    for byte in item {
        let Some(digit) = hex_digit(*byte) else {
            return None;
        };
        word = 16 * word + u32::from(digit);
    }
    Some(word)
}

/// Reads at most `MOST_WORDS` words of eight hexadecimal digits of either case, between blanks
/// (space, tab, LF, CR). The fault is that of the first bad item.
pub fn read_hex<A: Allocator + Copy>(alloc: A, bytes: &[u8]) -> Result<Vec<u32, A>, HexFault>
    ensures ok { IfOk result (λ words. hex_words bytes.now ≡ Ok words.items) }
    ensures err { IfErr result (λ fault. fault ≢ HexFault.Memory → hex_words bytes.now ≡ Err fault) }
    ensures few { IfOk result (λ words. vec_len words ≤ most_words) }
{
    let mut words = Vec::new(alloc);
    let mut from = 0;
    'items: while let Some((begin, end)) = next_item(bytes, from) {
        if words.len() == MOST_WORDS {
            return Err(HexFault::TooMany(MOST_WORDS));
        }
        let Some(word) = read_word(&bytes[begin..end]) else {
            return Err(HexFault::BadWord(words.len()));
        };
        let Ok(()) = words.push(word) else {
            return Err(HexFault::Memory);
        };
        from = end;
    }
    Ok(words)
}
