//! Laws of memory in banks: matching logs of harts and of banks are one run, of the machine too.
#![tactic(auto)]

pub use access::{LoggedAccess, LoggedKind};
pub use laws::{
    access_keeps_joined, equal_stamps_share_no_bank, logs_merge, merged_list_is_one, segments_run,
    stepwise_log_walks,
};
pub use runs::{matching_logs_are_one_run, run_is_the_tables};
pub use table::step_is_the_tables;

mod access;
mod laws;
mod runs;
mod table;
