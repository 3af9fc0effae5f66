//! Opens a program with its symbols, and a run of it.
#![tactic(auto)]

pub use opening::{NamedRun, NamedText, open_named, open_named_text};
pub use program::{NamedProgram, read_named};

mod opening;
mod program;
