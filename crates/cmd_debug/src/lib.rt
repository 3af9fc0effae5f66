//! The engine of `debug`.
#![tactic(auto)]

pub use conversation::{TalkFault, talk};
pub use engine::debug_engine;
pub use fault::DebugEngineFault;
pub use opening::open_session;

mod conversation;
mod engine;
mod fault;
mod line;
mod opening;
