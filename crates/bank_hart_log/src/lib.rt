//! The log of one hart; replaying it from the start gives the hart state that it stores.
#![tactic(auto)]

pub use first::first_hart;
pub use log::{AddFault, Ahead, AheadTouch, HartLog, each_hart_log_is_walked};
pub use step::{Found, Slot, code_access, data_access};

mod first;
mod local;
mod log;
mod step;
