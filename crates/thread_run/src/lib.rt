//! Runs each hart on a thread of its own; what they do becomes one history.
#![tactic(auto)]

pub use fault::{CommitFault, RunFault};
pub use limits::Limits;
pub use runner::{Outcome, run_threads};
pub use seat::Seat;
pub use shared::Shared;

mod entered;
mod fault;
mod limits;
mod room;
mod runner;
mod running;
mod seat;
mod shared;
mod spent;
mod terms;
mod worker;
