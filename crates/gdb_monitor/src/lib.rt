//! The commands of GDB's `monitor`: the position of a run, moves to another, its choices and harts.
#![tactic(auto)]

pub use command::{Command, read_command};
pub use monitored::{Monitored, Motion};
pub use obeying::{monitor, obey};

mod command;
mod harts_text;
mod monitored;
mod obeying;
mod position_text;
mod reserving;
mod schedule_text;
