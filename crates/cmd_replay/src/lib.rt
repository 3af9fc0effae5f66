//! The engine of `replay`.
#![tactic(auto)]

pub use replay::replay_engine;
pub use shown::shown_after;

mod opening;
mod replay;
mod shown;
