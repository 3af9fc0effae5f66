//! The engine of `campaign`.
#![tactic(auto)]

pub use campaign_runs::{
    Alone, Campaign, Form, Jobs, OnThreads, Properties, Report, Runner, Words,
};
pub use engine::{Finished, campaign_engine};
pub use laws::{
    all_seeds_are_counted, campaign_of_one_run_has_its_status, failures_of_an_object_are_none,
    lines_of_an_object_say_kept, no_run_fails_before_the_first, unasked_hangs_are_no_failure,
};
pub use limit::{Limit, Unlimited};
pub use lines::push_lines;
pub use outcome::{Exit, Expect};
pub use record::{count_ends_of, record_block};
pub use rows::summary_text;
pub use run_hangs::{Hangs, RunStatus};
pub use until::until_failure_engine;

mod engine;
mod findings;
mod laws;
mod limit;
mod lines;
mod record;
mod rows;
mod until;
