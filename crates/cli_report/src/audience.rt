//! The reader of standard error.

use cli_args::{Explain, explain_said};

/// The reader of standard error. Progress is for a person alone, and hints for a person, or for
/// whoever asks for them.
#[derive(Clone, Copy, PartialEq, Eq)]
pub enum Audience {
    /// A person at a terminal.
    Person,
    /// A file, or another program, that is told hints too.
    Reader,
    /// A file, or another program.
    Program,
}

impl Audience {
    /// The audience, once a command line, valid or not, has said when faults are explained.
    pub fn as_said(self, words: &[&str]) -> Audience {
        self.as_asked(explain_said(words))
    }

    /// The audience where faults are explained at such times.
    pub fn as_asked(self, explain: Explain) -> Audience {
        match explain {
            Explain::Auto => self,
            Explain::Always if self == Audience::Person => Audience::Person,
            Explain::Always => Audience::Reader,
            Explain::Never => Audience::Program,
        }
    }

    /// Whether it is told hints.
    pub fn is_told(self) -> bool {
        self != Audience::Program
    }

    /// Whether it sees progress.
    pub fn sees_progress(self) -> bool {
        self == Audience::Person
    }
}
