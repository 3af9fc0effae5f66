//! Every schedule of a program: its worlds under keys, and whether one of them is a failure.
#![tactic(auto)]

pub use explore_bounds::Bound;
pub use explorer::Explorer;
pub use exploring::{Answer, Failing, Held, explore};
pub use laws::{harts_in_a_section_are_seen, local_steps_can_wait, own_steps_can_wait};
pub use meant::ScRefusals;
pub use own_bounds::OwnBounds;
pub use own_words::OwnWord;
pub use question::{Always, Question};
pub use run_end::{Ends, Returned, RunEnd};
pub use section::Section;
pub use shared::Shared;

mod beginning;
mod ending;
mod expanding;
mod explorer;
mod exploring;
mod failing;
mod first;
mod guessing;
mod hash;
mod judging;
mod kept;
mod known;
mod laws;
mod meant;
mod memo;
mod own_bounds;
mod own_steps;
mod own_words;
mod parts;
mod question;
mod run_end;
mod section;
mod settling;
mod shared;
mod turning;
mod word;
