//! The first piece of a text.

ghost use Rattle.std.specs.Prelude.{◌≡◌, ◌<◌, ◌≤◌, ◌-◌, length, true, false, slice_index, IfSome};
ghost use Rattle.std.specs.List.{list_all};
ghost use Rattle.asm_lex.specs.Bytes.{is_digit, is_name_byte};
ghost use Rattle.asm_lex.specs.Pieces.{sign_of, closing, run_of_names, comment_len, reference_of, word_piece, front, TakesSomeOf};

use crate::bytes::{is_blank, is_digit, is_name_byte, is_printable};
use crate::number::number_of;
use crate::token::Kind;

/// The first piece of a text, with its length in bytes.
#[derive(Clone, Copy, PartialEq, Eq)]
pub enum Piece {
    /// A blank or a comment.
    Gap(usize),
    /// A token.
    Lexeme(Kind, usize),
    /// No piece begins with this byte.
    BadChar,
    /// A word that begins with a digit and is neither a number nor a reference.
    BadNumber,
    /// A string that is not closed on its line.
    OpenText,
}

// The kind of a printable character that stands for itself.
fn sign_of(byte: u8) -> Kind
    ensures { result ≡ sign_of byte }
{
    match byte {
        b',' => Kind::Comma,
        b'(' => Kind::Open,
        b')' => Kind::Close,
        b'+' => Kind::Plus,
        b'-' => Kind::Minus,
        b'%' => Kind::Percent,
        b':' => Kind::Colon,
        b';' => Kind::Semicolon,
        _ => Kind::Other(byte),
    }
}

// The number of name characters at the front.
#[tactic(auto, unfolding(crate::specs::Pieces::run_of_names))]
fn run_of_names(text: &[u8]) -> usize
    ensures begins { is_name_byte (slice_index text.now 0) ≡ true → 0 < result }
    ensures value { result ≡ run_of_names text.now }
    ensures within { result ≤ length text.now }
{
    text.iter().take_while(|byte| is_name_byte(**byte)).count()
}

// The number of bytes before the end of the line.
#[tactic(auto, unfolding(crate::specs::Pieces::comment_len))]
fn comment_len(text: &[u8]) -> usize
    ensures value { result ≡ comment_len text.now }
    ensures within { result ≤ length text.now }
{
    text.iter().take_while(|byte| **byte != b'\n').count()
}

// The number of bytes before the quote that closes a string.
#[tactic(auto, unfolding(crate::specs::Pieces::closing))]
fn closing(text: &[u8]) -> Option<usize>
    ensures value { result ≡ closing false text.now }
    ensures within { IfSome result (λ n. n < length text.now) }
{
    let mut escaped = false;
    for (i, byte) in text.iter().enumerate() {
        if *byte == b'\n' {
            return None;
        }
        if *byte == b'"' && !escaped {
            return Some(i);
        }
        escaped = *byte == b'\\' && !escaped;
    }
    None
}

fn are_digits(text: &[u8]) -> bool
    ensures { result ≡ list_all is_digit text.now }
{
    text.iter().all(|byte| is_digit(*byte))
}

// Decimal digits followed by `b` or `f`.
#[tactic(auto, unfolding(crate::specs::Pieces::reference_of))]
fn reference_of(word: &[u8]) -> Piece
    ensures value { result ≡ reference_of word.now }
    ensures within { TakesSomeOf (length word.now) result }
{
    let len = word.len();
    if len < 2 {
        return Piece::BadNumber;
    }
    let (digits, last) = word.split_at(len - 1);
    if !are_digits(digits) {
        return Piece::BadNumber;
    }
    match last[0] {
        b'b' => Piece::Lexeme(Kind::Back, len),
        b'f' => Piece::Lexeme(Kind::Ahead, len),
        _ => Piece::BadNumber,
    }
}

// A run of name characters as a piece. Inlined, as it is a part of `front`, which is inlined.
#[inline(always)]
#[tactic(auto, unfolding(crate::specs::Pieces::word_piece))]
fn word_piece(word: &[u8]) -> Piece
    requires { 0 < length word.now }
    ensures value { result ≡ word_piece word.now }
    ensures within { TakesSomeOf (length word.now) result }
{
    match word {
        [first, ..] if is_digit(*first) => match number_of(word) {
            Some(n) => Piece::Lexeme(Kind::Number(n), word.len()),
            None => reference_of(word),
        },
        _ => Piece::Lexeme(Kind::Name, word.len()),
    }
}

/// The first piece of a text.
// Two callers: the reader of sources, for each lexeme, and the reader of one line for hints.
// Without the attribute the compiler inlines it in neither, and a line of source takes a tenth more
// instructions.
#[inline(always)]
#[tactic(auto, unfolding(crate::specs::Pieces::front))]
pub fn front(text: &[u8]) -> Piece
    requires { 0 < length text.now }
    ensures value { result ≡ front text.now }
    ensures within { TakesSomeOf (length text.now) result }
{
    match text {
        [] => Piece::BadChar,
        [b'\n', ..] => Piece::Lexeme(Kind::LineEnd, 1),
        [b'\r', b'\n', ..] => Piece::Lexeme(Kind::LineEnd, 2),
        [b'#', rest @ ..] => Piece::Gap(1 + comment_len(rest)),
        [b'"', rest @ ..] => match closing(rest) {
            Some(len) => Piece::Lexeme(Kind::Text, len + 2),
            None => Piece::OpenText,
        },
        [byte, ..] => {
            if is_blank(*byte) {
                Piece::Gap(1)
            } else if is_name_byte(*byte) {
                word_piece(&text[..run_of_names(text)])
            } else if is_printable(*byte) {
                Piece::Lexeme(sign_of(*byte), 1)
            } else {
                Piece::BadChar
            }
        }
    }
}
