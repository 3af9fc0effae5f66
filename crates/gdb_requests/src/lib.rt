//! The requests of GDB's Remote Serial Protocol: the data of a packet to a request, or why it is
//! refused.
#![tactic(auto)]

pub use actions::read_actions;
pub use fault::RequestFault;
pub use laws::numbers_are_numerals;
pub use numbers::hex_number;
pub use plain::read_plain;
pub use reading::read_request;
pub use request::{Action, Plain, Point, PointKind, Request, ThreadAction, Threads};

mod actions;
mod bytes;
mod fault;
mod features;
mod laws;
mod numbers;
mod operands;
mod plain;
mod reading;
mod request;
mod words;
