//! Explains a fault of an assembler source: the line with a mark, and what to write. The
//! assembler's own line has the kind and the line number; this crate looks at that line again.
#![tactic(auto)]

pub use advise::{SourceText, asm_advice};
pub use entry::entry_advice;

mod advise;
mod diagnose;
mod entry;
mod found;
mod labels;
mod names;
mod operands;
mod ranges;
mod sentences;
mod shape;
mod statement;
