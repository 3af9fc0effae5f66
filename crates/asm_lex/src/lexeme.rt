//! Tokens by their bytes, without their places.
ghost use Rattle.std.specs.Prelude.{◌≡◌};
ghost use Rattle.std.specs.Str.{IsAscii};
ghost use Rattle.asm_lex.specs.Lexemes.{IsNext, lexeme_in, seen, without_last};
ghost use Rattle.asm_lex.specs.Reading.{IsPieceOf};

use crate::bytes::is_blank;
use crate::piece::{Piece, front};
use crate::token::{Kind, Token, text_of};
use std::str;

/// A token without its place. The variants are those of `Kind`.
#[derive(Clone, Copy, PartialEq, Eq)]
pub enum Lexeme<'a> {
    Name(&'a str),
    /// A number: its value and its characters.
    Number(u32, &'a str),
    /// The digits of a reference `b`.
    Back(&'a str),
    /// The digits of a reference `f`.
    Ahead(&'a str),
    /// A string with its quotes.
    Text(&'a [u8]),
    Comma,
    Open,
    Close,
    Plus,
    Minus,
    Percent,
    Colon,
    Semicolon,
    Other(u8),
    LineEnd,
}

/// The next item of a source.
#[derive(Clone, Copy, PartialEq, Eq)]
pub enum Next<'a> {
    /// A lexeme, and the offset after it.
    Lexeme(Lexeme<'a>, usize),
    /// The end of the source.
    End,
    /// Bytes that are no token.
    Fault,
}

// ASCII bytes as a text.
fn ascii(bytes: &[u8]) -> &str
    requires { IsAscii bytes.now }
    ensures { result.now ≡ bytes.now }
{
    // SAFETY: ASCII is UTF-8.
    unsafe { str::from_utf8_unchecked(bytes) }
}

// The lexeme of a token of this source.
#[tactic(auto, using(crate::proofs::Ascii::name_is_ascii, crate::proofs::Ascii::number_is_ascii, crate::proofs::Ascii::back_is_ascii, crate::proofs::Ascii::ahead_is_ascii))]
fn lexeme_of<'a>(source: &'a [u8], token: Token) -> Lexeme<'a>
    requires { IsPieceOf source.now token }
    ensures { seen result ≡ lexeme_in source.now token }
{
    let bytes = text_of(source, &token);
    match token.kind {
        Kind::Name => Lexeme::Name(ascii(bytes)),
        Kind::Number(n) => Lexeme::Number(n, ascii(bytes)),
        Kind::Back => Lexeme::Back(ascii(without_last(bytes))),
        Kind::Ahead => Lexeme::Ahead(ascii(without_last(bytes))),
        Kind::Text => Lexeme::Text(bytes),
        Kind::Comma => Lexeme::Comma,
        Kind::Open => Lexeme::Open,
        Kind::Close => Lexeme::Close,
        Kind::Plus => Lexeme::Plus,
        Kind::Minus => Lexeme::Minus,
        Kind::Percent => Lexeme::Percent,
        Kind::Colon => Lexeme::Colon,
        Kind::Semicolon => Lexeme::Semicolon,
        Kind::Other(byte) => Lexeme::Other(byte),
        Kind::LineEnd => Lexeme::LineEnd,
    }
}

// All bytes but the last.
fn without_last(bytes: &[u8]) -> &[u8]
    ensures { result.now ≡ without_last bytes.now }
{
    let (front, _) = bytes.split_at(bytes.len().saturating_sub(1));
    front
}

/// The next item of a source from a byte offset on, after blanks and comments; `End` for an offset
/// past its end.
#[tactic(auto, using(crate::proofs::LexemeSteps::blank_step, crate::proofs::LexemeSteps::gap_step, crate::proofs::LexemeSteps::lexeme_step, crate::proofs::LexemeSteps::bad_char, crate::proofs::LexemeSteps::bad_number, crate::proofs::LexemeSteps::open_text, crate::proofs::LexemeSteps::at_end))]
pub fn next_lexeme<'a>(source: &'a str, from: usize) -> Next<'a>
    ensures { IsNext source.now from result }
{
    let bytes = source.as_bytes();
    let mut at = from;
    'gaps: while at < bytes.len() {
        // Most gaps are blanks; testing for them first saves the full match.
        if is_blank(bytes[at]) {
            at += 1;
            continue;
        }
        let (_, rest) = bytes.split_at(at);
        match front(rest) {
            Piece::Gap(len) => at += len,
            Piece::Lexeme(kind, len) => {
                let end = at + len;
                let token = Token {
                    kind,
                    start: at,
                    end,
                };
                return Next::Lexeme(lexeme_of(bytes, token), end);
            }
            Piece::BadChar => return Next::Fault,
            Piece::BadNumber => return Next::Fault,
            Piece::OpenText => return Next::Fault,
        }
    }
    Next::End
}
