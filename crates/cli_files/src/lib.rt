//! Runs `asm`, `list`, `info` and `lib`.
#![tactic(auto)]

pub use asm::obey_asm;
pub use file::{obey_info, obey_list};
pub use library::obey_lib;

mod asm;
mod file;
mod library;
mod sources;
