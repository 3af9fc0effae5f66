//! How a run ended, what is expected of it, its exit status, and the lines that are printed of it.
#![tactic(auto)]

pub use expect::{Exit, Expect, status_by};
pub use lines::{CauseName, EndLine, lines_text, verdict_on};
pub use run_outcome::{End, Outcome, count_ends, some_run};

mod expect;
mod lines;
mod run_outcome;
