//! The labels of sources.

use crate::advise::SourceText;
use crate::found::Found;
use crate::sentences::TWICE;
use crate::statement::{Word, read_words};
use asm_lex::Kind;
use hint_text::{Sentence, Value};
use std::alloc::{AllocError, Allocator};

/// A label of a source.
#[derive(Clone, Copy)]
pub(crate) struct Label<'a> {
    pub(crate) name: &'a str,
    pub(crate) path: &'a str,
    /// Its line, from 1.
    pub(crate) line: usize,
}

/// The labels of all sources, in order.
pub(crate) fn labels_of<'a, A: Allocator + Copy>(
    alloc: A,
    sources: &[SourceText<'a>],
) -> Result<Vec<Label<'a>, A>, AllocError> {
    let mut labels = Vec::new(alloc);
    'sources: for source in sources {
        push_labels(alloc, &mut labels, *source)?;
    }
    Ok(labels)
}

// Adds the labels of a source.
fn push_labels<'a, A: Allocator + Copy>(
    alloc: A,
    labels: &mut Vec<Label<'a>, A>,
    source: SourceText<'a>,
) -> Result<(), AllocError> {
    'lines: for (index, line) in source.text.lines().enumerate() {
        let words = read_words(alloc, line)?;
        push_line_labels(labels, &words.words, source.path, index.saturating_add(1))?;
    }
    Ok(())
}

// Adds the labels of a line.
fn push_line_labels<'a, A: Allocator>(
    labels: &mut Vec<Label<'a>, A>,
    words: &[Word<'a>],
    path: &'a str,
    line: usize,
) -> Result<(), AllocError> {
    let mut name = "";
    'words: for word in words {
        if word.is(Kind::Colon) && !name.is_empty() {
            labels.push(Label { name, path, line })?;
        }
        name = word.name();
    }
    Ok(())
}

/// Whether a label has a name.
pub(crate) fn is_defined(labels: &[Label<'_>], name: &str) -> bool {
    'labels: for label in labels {
        if label.name == name {
            return true;
        }
    }
    false
}

// The first label whose name another one has too.
fn first_of_two<'a>(labels: &[Label<'a>], name: &str) -> Option<Label<'a>> {
    let mut first = None;
    'labels: for label in labels {
        if label.name == name {
            if first.is_some() {
                return first;
            }
            first = Some(*label);
        }
    }
    None
}

// What is wrong with a label, if another one has its name.
fn label_fault<'a>(word: &Word<'a>, labels: &[Label<'a>]) -> Option<Found<'a>> {
    let first = first_of_two(labels, word.name())?;
    let values = [
        Value::Text(word.text),
        Value::Text(first.path),
        Value::Count(first.line),
    ];
    Some(Found::at(
        word,
        Sentence {
            form: TWICE,
            values,
        },
    ))
}

/// The first label of a line that is defined twice.
pub(crate) fn twice<'a>(words: &[Word<'a>], labels: &[Label<'a>]) -> Option<Found<'a>> {
    let mut found = None;
    'words: for word in words {
        if word.is(Kind::Colon) && found.is_some() {
            return found;
        }
        found = label_fault(word, labels);
    }
    None
}
