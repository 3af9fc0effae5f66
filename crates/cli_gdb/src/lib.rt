//! Runs `gdb`.
#![tactic(auto)]

pub use gdb::obey_gdb;

mod gdb;
