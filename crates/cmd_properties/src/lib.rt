//! `run` with properties of one's own, or that decides whether its run hangs, or with an object of
//! JSON in place of lines.
#![tactic(auto)]

pub use cmd_json::Form;
pub use judged_run::judged_text;
pub use lines::JudgedLine;
pub use run_hangs::{Hangs, RunStatus, machine_after, steps_for, take_step};

mod hangs;
mod judged_run;
mod lines;
mod objects;
