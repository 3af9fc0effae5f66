//! Runs the command `run`, with properties of one's own or without, and decides whether it hangs.
#![tactic(auto)]

pub use cmd_properties::RunStatus;
pub use judged::obey_any_run;

mod hangs;
mod judged;
mod said;
mod spins;
