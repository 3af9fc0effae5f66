//! The engine of `shrink`: how a run fails, and a minimal choice text that fails in the same way,
//! found by a search over any test of lists.
#![tactic(auto)]

pub use breaking::breaks_property;
pub use byte_io::Unheard;
pub use failing::Failing;
pub use failure::Failure;
pub use hearing::ChoicesLeft;
pub use laws::failing_run_fails_so;
pub use property_judge::Property;
pub use run_failure::failure_after;
pub use same_failure::SameFailure;
pub use shrink::shrink_engine;
pub use shrinking::shrink_choices;

mod breaking;
mod edits;
mod failing;
mod failure;
mod few_switches;
mod hearing;
mod laws;
mod minimal;
mod passes;
mod run_failure;
mod runs;
mod same_failure;
mod shortening;
mod shrink;
mod shrinking;
