//! Reads and prints choice texts: the schedule of a run, as a person writes it.
#![tactic(auto)]

pub use choice_text::{ChoiceFault, read_choices, read_run};
pub use laws::{
    choice_texts_are_decided, longest_runs_are_maximal, one_list, printed_is_read,
    printed_runs_are_read, read_as_spelled, refused_as_spoiled,
};
pub use printing::{print_choices, print_runs};
pub use run::{MOST_EQUAL, Run};

mod choice_text;
mod laws;
mod printing;
mod run;
