//! What was found wrong in a line.

use crate::statement::Word;
use hint_text::{Form, Sentence};

/// The names among which the intended one may be.
#[derive(Clone, Copy)]
pub(crate) enum Among {
    /// Those of instructions and directives.
    Heads,
    Labels,
}

/// An unknown name, and the sentence with the nearest one.
#[derive(Clone, Copy)]
pub(crate) struct Near<'a> {
    pub(crate) among: Among,
    pub(crate) name: &'a str,
    pub(crate) form: Form,
}

/// What is wrong with a part of a line.
#[derive(Clone, Copy)]
pub(crate) struct Found<'a> {
    /// The part's first byte, as an offset in the line.
    pub(crate) start: usize,
    /// Its length in characters.
    pub(crate) len: usize,
    /// The sentence if no name is near.
    pub(crate) sentence: Sentence<'a>,
    pub(crate) near: Option<Near<'a>>,
}

impl<'a> Found<'a> {
    /// What is wrong with a word.
    pub(crate) fn at(word: &Word<'a>, sentence: Sentence<'a>) -> Found<'a> {
        Found {
            start: word.start,
            len: word.text.len(),
            sentence,
            near: None,
        }
    }

    /// What is wrong with a word that is the first value of its sentence.
    pub(crate) fn on(word: &Word<'a>, form: Form) -> Found<'a> {
        Found::at(word, Sentence::of(form, word.text))
    }

    /// What is wrong with an unknown name, and the sentence with the nearest one, if there is one.
    pub(crate) fn none_of(among: Among, word: &Word<'a>, form: Form, near: Form) -> Found<'a> {
        Found {
            near: Some(Near {
                among,
                name: word.text,
                form: near,
            }),
            ..Found::on(word, form)
        }
    }
}
