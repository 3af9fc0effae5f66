//! Parses assembler sources to statements, or to the first fault with its source and line.
#![tactic(auto)]

pub use read::statements;

mod body;
mod directives;
mod heads;
mod names;
mod operands;
mod operations;
mod place;
mod read;
mod refusal;
mod shape;
mod texts;
