//! Runs `campaign`, `explore` and `shrink`.
#![tactic(auto)]

pub use campaign::obey_campaign;
pub use explore::obey_explore;
pub use shrink::obey_shrink;

mod bounded;
mod campaign;
mod exiting;
mod explore;
mod properties;
mod seconds;
mod shrink;
mod watching;
mod words;
