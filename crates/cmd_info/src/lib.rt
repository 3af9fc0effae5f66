//! The engine of `info --json`: the facts of an ELF file as an object of JSON.
#![tactic(auto)]

pub use cmd_run::{FileView, SymbolOrder, file_engine};
pub use facts::{facts_engine, facts_object};

mod facts;
mod members;
