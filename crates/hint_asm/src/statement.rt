//! A line of a source as statements.

use asm_lex::{Kind, TextFault, Token, scan_text, text_of};
use std::alloc::{AllocError, Allocator};

/// A token of a line with its text.
#[derive(Clone, Copy)]
pub(crate) struct Word<'a> {
    pub(crate) kind: Kind,
    /// The offset of its first byte in its line.
    pub(crate) start: usize,
    pub(crate) text: &'a str,
}

impl<'a> Word<'a> {
    /// Whether it is this sign.
    pub(crate) fn is(&self, kind: Kind) -> bool {
        self.kind == kind
    }

    /// Its text if it is a name, else an empty one.
    pub(crate) fn name(&self) -> &'a str {
        if self.is(Kind::Name) { self.text } else { "" }
    }
}

/// The tokens of a line up to the first bytes that are none.
#[derive(Drop)]
pub(crate) struct LineWords<'a, A: Allocator> {
    pub(crate) words: Vec<Word<'a>, A>,
    pub(crate) fault: Option<TextFault>,
}

/// Splits a line into its tokens.
pub(crate) fn read_words<'a, A: Allocator + Copy>(
    alloc: A,
    line: &'a str,
) -> Result<LineWords<'a, A>, AllocError> {
    let scan = scan_text(alloc, line)?;
    let mut words = Vec::new(alloc);
    'tokens: for token in &scan.tokens {
        words.push(word_of(line, token))?;
    }
    Ok(LineWords {
        words,
        fault: scan.fault,
    })
}

fn word_of<'a>(line: &'a str, token: &Token) -> Word<'a> {
    Word {
        kind: token.kind,
        start: token.start,
        text: str::from_utf8(text_of(line.as_bytes(), token)).unwrap_or(""),
    }
}

/// The words after the labels at the front.
pub(crate) fn behind_labels<'w, 'a>(words: &'w [Word<'a>]) -> &'w [Word<'a>] {
    let mut rest = words;
    'labels: for _ in 0..words.len() {
        rest = match rest {
            [_, colon, more @ ..] if colon.is(Kind::Colon) => more,
            _ => return rest,
        };
    }
    rest
}
