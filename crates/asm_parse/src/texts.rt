//! The bytes of strings.
ghost use Rattle.std.specs.Prelude.{◌≡◌, ◌<◌, ◌≤◌, IfSome, length};
ghost use Rattle.asm_parse.specs.Refusals.{Tells};
ghost use Rattle.asm_statement.specs.Texts as texts;

use crate::refusal::Refusal;
use asm_statement::FaultKind;
use std::alloc::Allocator;

fn is_octal(byte: u8) -> bool
    ensures { result ≡ texts.is_octal byte }
{
    byte >= b'0' && byte <= b'7'
}

// The octal digit at a place, if there is one.
fn octal_at(text: &[u8], place: usize) -> Option<u8>
    ensures value { result ≡ texts.octal_at text.now place }
    ensures digit { IfSome result (λ digit. digit < 8) }
{
    if place < text.len() && is_octal(text[place]) {
        Some(text[place] - b'0')
    } else {
        None
    }
}

// The byte of one to three octal digits, and their number.
#[tactic(auto, unfolding(asm_statement::specs::Texts::octal_escape))]
fn octal_escape(text: &[u8]) -> Option<(u8, usize)>
    ensures value { result ≡ texts.octal_escape text.now }
    ensures within { IfSome result (λ found. found.1 ≤ length text.now) }
{
    match (octal_at(text, 0), octal_at(text, 1), octal_at(text, 2)) {
        (Some(first), Some(second), Some(third)) => {
            if first < 4 {
                Some((first * 64 + second * 8 + third, 3))
            } else {
                None
            }
        }
        (Some(first), Some(second), None) => Some((first * 8 + second, 2)),
        (Some(first), None, _) => Some((first, 1)),
        (None, _, _) => None,
    }
}

// The byte of a letter or a sign after a backslash.
fn plain_escape(byte: u8) -> Option<u8>
    ensures { result ≡ texts.plain_escape byte }
{
    match byte {
        b'n' => Some(b'\n'),
        b't' => Some(b'\t'),
        b'r' => Some(b'\r'),
        b'\\' => Some(b'\\'),
        b'"' => Some(b'"'),
        _ => None,
    }
}

// The byte of an escape, and the number of bytes that it takes after the backslash.
#[tactic(auto, unfolding(asm_statement::specs::Texts::escape))]
fn escape(text: &[u8]) -> Option<(u8, usize)>
    ensures value { result ≡ texts.escape text.now }
    ensures within { IfSome result (λ found. found.1 ≤ length text.now) }
{
    match text {
        [first, ..] => match plain_escape(*first) {
            Some(byte) => Some((byte, 1)),
            None => octal_escape(text),
        },
        [] => None,
    }
}

// The byte at the front of a text, and the number of bytes that it takes.
#[tactic(auto, unfolding(asm_statement::specs::Texts::byte_in_front))]
fn byte_in_front(text: &[u8]) -> Option<(u8, usize)>
    ensures value { result ≡ texts.byte_in_front text.now }
    ensures some { IfSome result (λ found. 0 < found.1) }
    ensures within { IfSome result (λ found. found.1 ≤ length text.now) }
{
    match text {
        [b'\\', rest @ ..] => match escape(rest) {
            Some((byte, len)) => Some((byte, len + 1)),
            None => None,
        },
        [byte, ..] => Some((*byte, 1)),
        [] => None,
    }
}

// The bytes between the quotes of a string.
fn between_quotes(text: &[u8]) -> &[u8]
    ensures { result.now ≡ texts.between_quotes text.now }
{
    let (front, _) = text.split_at(text.len().saturating_sub(1));
    let (_, inner) = front.split_at(front.len().min(1));
    inner
}

/// Appends the bytes of a string, given with its quotes. An invalid escape is a fault.
#[tactic(auto, using(crate::proofs::TextSteps::byte_step, crate::proofs::TextSteps::no_byte, crate::proofs::TextSteps::at_end))]
pub fn push_text<A: Allocator>(bytes: &mut Vec<u8, A>, text: &[u8]) -> Result<(), Refusal>
    ensures { Tells (λ _. bytes.new.items) result (texts.quoted_bytes bytes.old.items text.now) }
{
    let inner = between_quotes(text);
    let mut at = 0;
    'bytes: while at < inner.len() {
        let (_, rest) = inner.split_at(at);
        let Some((byte, len)) = byte_in_front(rest) else {
            return Err(Refusal::Wrong(FaultKind::Operands));
        };
        bytes.push(byte)?;
        at += len;
    }
    Ok(())
}
