//! What runs of harts on threads share: the gate before each shared step, the plan of refusals, when
//! a hart has stopped, and that one which spins lets others run.
#![tactic(auto)]

pub use gate::{Gate, OpenGate};
pub use plan::{Plan, is_planned};
pub use spinning::Spinning;
pub use stopped::is_stopped;

mod gate;
mod plan;
mod spinning;
mod stopped;
