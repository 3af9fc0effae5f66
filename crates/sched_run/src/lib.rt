//! Runs a choice text on a machine, choice by choice.
#![tactic(auto)]

pub use checking::early_fault;
pub use chosen::Chosen;
pub use running::run_choices;

mod checking;
mod chosen;
mod reading;
mod running;
