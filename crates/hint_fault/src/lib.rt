//! Explains faults of files, choice texts, numbers of harts and instructions.
#![tactic(auto)]

pub use choices::item_at;
pub use files::file_words;
pub use harts::{EndsTold, harts_advice};
pub use places::{push_instruction, push_standing, segment_at};
pub use runs::{Ended, Explained, all_still_run, ended_advice, run_advice, symbols_or_none};

mod choices;
mod files;
mod harts;
mod places;
mod rules;
mod runs;
mod sentences;
