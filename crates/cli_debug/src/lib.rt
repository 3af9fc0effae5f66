//! Runs `debug`, for another program or for a person at a terminal.
#![tactic(auto)]

pub use debug::obey_debug;

mod conversation;
mod debug;
