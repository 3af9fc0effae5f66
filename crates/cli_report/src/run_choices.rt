//! The choices of a run: where they are read.

use crate::explain::read_again;
use cli_args::ChoiceText;
use std::rt::Files;

/// Where the choices of a run are read, or its history.
#[derive(Clone, Copy)]
pub enum RunChoices<'a> {
    /// In the file of this path.
    File(&'a str),
    /// In memory.
    Held {
        /// Their text.
        text: &'a [u8],
        /// What reports call them.
        name: &'a str,
    },
}

impl<'a> RunChoices<'a> {
    /// The choices that a line names. Those that are neither in a file nor on the line are held.
    pub fn of(named: ChoiceText<'a>, held: &'a [u8]) -> RunChoices<'a> {
        match named {
            ChoiceText::File(path) => RunChoices::File(path),
            ChoiceText::List(text) => RunChoices::Held {
                text: text.as_bytes(),
                name: named.name(),
            },
            _ => RunChoices::Held {
                text: held,
                name: named.name(),
            },
        }
    }

    /// What reports call them: the path of their file, or the option that names them.
    pub fn name(self) -> &'a str {
        match self {
            RunChoices::File(path) => path,
            RunChoices::Held { name, .. } => name,
        }
    }

    /// Their text, if it can be read again.
    pub fn again<R: Files + AllocGlobal>(self, rt: &R) -> Option<Vec<u8>> {
        match self {
            RunChoices::File(path) => read_again(rt, path),
            RunChoices::Held { text, .. } => Vec::from_slice(rt.alloc(), text).ok(),
        }
    }
}
