//! A memory that keeps each segment in one piece, and the program's words decoded once.
#![tactic(auto)]

pub use code::Code;
pub use flat_store::FlatStore;

mod block;
mod building;
mod code;
mod flat_store;
mod known;
mod memo;
mod reading;
mod search;
mod table;
mod writing;
