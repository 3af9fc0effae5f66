//! Runs the command `run`.
#![tactic(auto)]

pub use run::{expect_said, explain_failure, has_failed, obey_run};

mod run;
