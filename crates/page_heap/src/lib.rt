//! A heap over memory that a page hands in.
#![tactic(auto)]

pub use block::Block;
pub use heap::Heap;

mod block;
mod heap;
mod pile;
mod shelf;
