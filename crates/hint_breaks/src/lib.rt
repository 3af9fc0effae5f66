//! What a person is told of properties that a run breaks.
#![tactic(auto)]

pub use breaks::{breaks_advice, breaks_of_run};

mod breaks;
