//! Merges matching logs of harts and of banks to the choices of one run, and checks that they
//! match.
#![tactic(auto)]

pub use matching::is_matched;
pub use merging::{MergeFault, merge, merge_matched};
pub use one_run::{equal_stamps_are_apart, logs_are_one_run};
pub use order::{are_ordered, have_no_others, is_ordered};

mod matching;
mod merging;
mod one_run;
mod order;
mod places;
mod seen;
