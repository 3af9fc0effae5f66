//! All harts over one memory: start, step and run.
#![tactic(auto)]

pub use choice::Choice;
pub use example::run_in_an_example;
pub use inputs::{Inputs, StartFault, see_words};
pub use laws::{
    every_machine_has_zero, run_goes_on, run_keeps_alignment, run_keeps_harts,
    run_keeps_unwritable, run_keeps_zero,
};
pub use machine::Machine;
pub use run::Stopped;
pub use running::runs;

mod choice;
mod example;
mod inputs;
mod laws;
mod machine;
mod run;
mod running;
mod start;
