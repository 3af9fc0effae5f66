//! Runs `replay`, `threads` and `trace`.
#![tactic(auto)]

pub use replay::obey_replay;
pub use threads::obey_threads;
pub use trace::obey_trace;
pub use trace_plan::read_trace_plan;
pub use word::traced_word;

mod exiting;
mod history_hint;
mod replay;
mod telling_gate;
mod threads;
mod trace;
mod trace_plan;
mod word;
