//! Makes the choices that a line names by a seed, by turns or by a history, for a run or for
//! `schedule`, which prints them.
#![tactic(auto)]

pub use expansion::expand_history;
pub use held::{NamedRun, hold_choices};
pub use schedule::obey_schedule;

mod expansion;
mod held;
mod made;
mod schedule;
