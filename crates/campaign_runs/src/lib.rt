//! Runs a program under the schedule of each seed of a range, on all processors, and counts how the
//! runs end.
#![tactic(auto)]

pub use campaign::{Campaign, Report};
pub use cmd_form::Form;
pub use ending::Ending;
pub use jobs::Jobs;
pub use laws::{
    blocks_are_counted_together, each_ending_is_counted, same_endings_are_equal,
    unasked_hangs_add_nothing, unnamed_words_add_nothing,
};
pub use properties::Properties;
pub use run_hangs::Hangs;
pub use runner::{Alone, OnThreads, Runner};
pub use seed_run::{SeedEnd, ending_of_choices, run_seed};
pub use seeds::{BLOCK_STEPS, Block, LEAST_SEEDS, MOST_SEEDS, Seeds};
pub use tally::{SeedCount, Tally};
pub use words::Words;

mod block;
mod campaign;
mod ending;
mod jobs;
mod laws;
mod members;
mod properties;
mod runner;
mod seed_run;
mod seed_runs;
mod seeds;
mod tally;
mod words;
