//! The engine of `gdb`.
#![tactic(auto)]

pub use answer::{Answer, answer_packet, answer_request};
pub use cmd_debug::DebugEngineFault;
pub use conversation::serve;
pub use engine::gdb_engine;
pub use server::Server;

mod answer;
mod conversation;
mod engine;
mod packets;
mod sending;
mod server;
