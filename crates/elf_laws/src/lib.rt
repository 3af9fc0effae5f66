//! The laws of written files: each field is at its place, and the symbols that are read of a file
//! are its program's.
#![tactic(auto)]

pub use fields::{fields_fix_the_bytes, written_fields};
pub use given::symbols_of_written;
pub use labels::{labels_are_names, symbols_come_back};
pub use listed::symbols_are_the_tables;

mod fields;
mod given;
mod labels;
mod listed;
