//! The explanation of a source's fault.

use crate::diagnose::statement_fault;
use crate::found::{Among, Found};
use crate::labels::{Label, labels_of, twice};
use crate::sentences::{BAD_BYTE, BAD_NUMBER, HEAD, OPEN_STRING};
use crate::shape::{Row, rows_for};
use crate::statement::{LineWords, Word, behind_labels, read_words};
use asm_lex::{Kind, TextFault};
use asm_statement::{Fault, FaultKind};
use hint_text::{Sentence, Value, line_at, nearest, push_line, push_mark, push_sentence};
use std::alloc::{AllocError, Allocator};

// A name with a smaller edit distance may be the intended one.
const EDITS: usize = 3;

/// A source with its path as it was given.
#[derive(Clone, Copy)]
pub struct SourceText<'a> {
    /// The path.
    pub path: &'a str,
    /// The whole text.
    pub text: &'a str,
}

/// The explanation of a fault of sources, as whole lines: the source's path, the line's number,
/// what is wrong and what to write; the line itself; and a mark under the part in question. Empty
/// if the fault's line doesn't exist.
pub fn asm_advice<A: Allocator + Copy>(
    alloc: A,
    sources: &[SourceText<'_>],
    fault: Fault,
) -> Result<String<A>, AllocError> {
    let mut text = String::new(alloc);
    if let Some(source) = sources.get(fault.source) {
        if let Some(line) = line_at(source.text, fault.line) {
            let found = found_in(alloc, sources, fault.kind, line)?;
            push_head(&mut text, source.path, fault.line, found)?;
            push_shown(&mut text, line, found)?;
        }
    }
    Ok(text)
}

// What is wrong with a line of sources, given the kind of its fault.
fn found_in<'a, A: Allocator + Copy>(
    alloc: A,
    sources: &[SourceText<'a>],
    kind: FaultKind,
    line: &'a str,
) -> Result<Option<Found<'a>>, AllocError> {
    let labels = labels_of(alloc, sources)?;
    let words = read_words(alloc, line)?;
    match line_fault(kind, line, &words, &labels) {
        Some(found) => with_nearest(alloc, found, &labels),
        None => Ok(None),
    }
}

// What was found, with the name that may be intended.
fn with_nearest<'a, A: Allocator + Copy>(
    alloc: A,
    found: Found<'a>,
    labels: &[Label<'a>],
) -> Result<Option<Found<'a>>, AllocError> {
    let Some(near) = found.near else {
        return Ok(Some(found));
    };
    let names = names_among(alloc, near.among, near.name, labels)?;
    let sentence = match nearest(alloc, &names, near.name, EDITS)? {
        Some(name) => Sentence::of_two(near.form, near.name, name),
        None => found.sentence,
    };
    Ok(Some(Found { sentence, ..found }))
}

// The names among which the intended one may be.
fn names_among<'a, A: Allocator + Copy>(
    alloc: A,
    among: Among,
    name: &str,
    labels: &[Label<'a>],
) -> Result<Vec<&'a str, A>, AllocError> {
    let names = match among {
        Among::Heads => names_in(alloc, rows_for(name))?,
        Among::Labels => names_of(alloc, labels)?,
    };
    Ok(names)
}

fn names_in<A: Allocator>(alloc: A, rows: &[Row]) -> Result<Vec<&'static str, A>, AllocError> {
    let mut names = Vec::new(alloc);
    'rows: for row in rows {
        names.extend_from_slice(row.names)?;
    }
    Ok(names)
}

fn names_of<'a, A: Allocator>(
    alloc: A,
    labels: &[Label<'a>],
) -> Result<Vec<&'a str, A>, AllocError> {
    let mut names = Vec::new(alloc);
    'labels: for label in labels {
        names.push(label.name)?;
    }
    Ok(names)
}

// Adds the line that says what is wrong.
fn push_head<A: Allocator>(
    text: &mut String<A>,
    path: &str,
    line: usize,
    found: Option<Found<'_>>,
) -> Result<(), AllocError> {
    push_sentence(
        text,
        &Sentence::of_three(HEAD, path, "", Value::Count(line)),
    )?;
    if let Some(found) = found {
        text.push(' ')?;
        push_sentence(text, &found.sentence)?;
    }
    text.push('\n')
}

// Adds a line, and the mark under what was found in it.
fn push_shown<A: Allocator>(
    text: &mut String<A>,
    line: &str,
    found: Option<Found<'_>>,
) -> Result<(), AllocError> {
    text.push_str("    ")?;
    push_line(text, line)?;
    text.push('\n')?;
    match found {
        Some(found) => push_marks(text, line, found),
        None => Ok(()),
    }
}

// Appends a line with the mark under what was found in another one.
fn push_marks<A: Allocator>(
    text: &mut String<A>,
    line: &str,
    found: Found<'_>,
) -> Result<(), AllocError> {
    text.push_str("    ")?;
    push_mark(text, line, found.start)?;
    'more: for _ in 1..found.len.max(1) {
        text.push('^')?;
    }
    text.push('\n')
}

// What is wrong with a line, given the kind of its fault.
fn line_fault<'a, A: Allocator>(
    kind: FaultKind,
    line: &'a str,
    words: &LineWords<'a, A>,
    labels: &[Label<'a>],
) -> Option<Found<'a>> {
    match kind {
        FaultKind::Token => token_fault(line, words.fault?),
        FaultKind::Twice => twice(&words.words, labels),
        _ => first_fault(kind, &words.words, labels),
    }
}

// What is wrong with the first statement of a line that has a fault of this kind.
fn first_fault<'a>(kind: FaultKind, words: &[Word<'a>], labels: &[Label<'a>]) -> Option<Found<'a>> {
    'statements: for statement in words.split(|word| word.kind == Kind::Semicolon) {
        let found = statement_fault(kind, behind_labels(statement), labels);
        if found.is_some() {
            return found;
        }
    }
    None
}

// What is wrong with the first bytes that are no token.
fn token_fault<'a>(line: &'a str, fault: TextFault) -> Option<Found<'a>> {
    let (start, len, sentence) = match fault {
        TextFault::BadChar(at) => (at, 1, Sentence::of(BAD_BYTE, "")),
        TextFault::OpenText(at) => (
            at,
            line.len().saturating_sub(at),
            Sentence::of(OPEN_STRING, ""),
        ),
        TextFault::BadNumber(at) => {
            let word = word_at(line, at);
            (at, word.len(), Sentence::of(BAD_NUMBER, word))
        }
        TextFault::Memory => return None,
    };
    Some(Found {
        start,
        len,
        sentence,
        near: None,
    })
}

// The letters, digits and signs of names from an offset on.
fn word_at(line: &str, at: usize) -> &str {
    let bytes = line.as_bytes();
    let (_, rest) = bytes.split_at(at.min(bytes.len()));
    let len = rest
        .iter()
        .take_while(|byte| byte.is_ascii_alphanumeric() || matches!(**byte, b'_' | b'.' | b'$'))
        .count();
    let (word, _) = rest.split_at(len.min(rest.len()));
    match str::from_utf8(word) {
        Ok(word) => word,
        Err(_) => "",
    }
}
