//! Reads ELF files: their images and their symbols.
#![tactic(auto)]

pub use file::{a_segments_bytes_are_the_files, load};
pub use label::nearest_label;
pub use laws::numbers_are_the_standards;
pub use symbol::{SymFault, Symbol, SymbolKind, SymbolPlace};
pub use symbol_table::symbols;

pub mod elf;
mod file;
mod header;
mod label;
mod laws;
mod name;
mod number;
mod program_header;
mod section;
mod symbol;
mod symbol_fields;
mod symbol_table;
