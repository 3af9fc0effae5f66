//! Writes programs as ELF files.
#![tactic(auto)]

pub use laws::written_files_load;
pub use writer::write_elf;

mod field;
mod laws;
mod layout;
mod section;
mod segment;
mod table;
mod writer;
