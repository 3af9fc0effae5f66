//! Splits an assembler text into tokens.
#![tactic(auto)]

pub use fault::TextFault;
pub use laws::{one_reading, spans_do_not_matter};
pub use lexeme::{Lexeme, Next, next_lexeme};
pub use read::{Scan, scan_text, tokens};
pub use token::{Kind, Token, text_of};

mod bytes;
mod fault;
mod laws;
mod lexeme;
mod number;
mod piece;
mod read;
mod token;
