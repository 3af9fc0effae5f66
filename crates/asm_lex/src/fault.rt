//! The faults of a text.
ghost use Rattle.std.specs.Prelude.{◌≡◌};
ghost use Rattle.asm_lex.specs.declared.fault.TextFault.TheVariants.{Memory};

use std::alloc::AllocError;
use thiserror::Error;

/// The first fault of a text, with the byte offset where it begins; or out of memory.
#[derive(Clone, Copy, Debug, PartialEq, Eq, Error)]
pub enum TextFault {
    /// A byte that begins no token: a control character, a byte above 126, or a CR without an LF
    /// after it.
    #[error("text fault BadChar at {0}")]
    BadChar(usize),
    /// A run of name characters that begins with a digit but is neither a number below 2^32 nor a
    /// reference.
    #[error("text fault BadNumber at {0}")]
    BadNumber(usize),
    /// A string that is not closed on its line.
    #[error("text fault OpenText at {0}")]
    OpenText(usize),
    /// Out of memory.
    #[error("out of memory")]
    Memory,
}

impl From<AllocError> for TextFault {
    ghost from_gives = { λ _ e. e ≡ Memory };

    fn from(_e: AllocError) -> TextFault {
        TextFault::Memory
    }
}
