//! Properties of a program's worlds, and the first choice of a run after which one doesn't hold.
#![tactic(auto)]

pub use judged::{Judged, judge_run, judge_world};
pub use judging::{compares, holds_in, is_within, word_read};
pub use laws::break_is_the_first;
pub use property::{Comparison, Order, Property};

mod judged;
mod judging;
mod laws;
mod property;
mod reach;
