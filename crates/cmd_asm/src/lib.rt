//! The engine of `asm`.
#![tactic(auto)]

pub use assembling::{assembled_file, file_engine, listing_engine, write_file};
pub use fault::AssemblyFault;
pub use program::assemble;
pub use sources::read_sources;

mod assembling;
mod fault;
mod program;
mod sources;
