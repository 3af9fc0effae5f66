//! What each choice of a run did, as data, and the laws of what is told of a run.
#![tactic(auto)]

pub use ending::{Ending, Endings};
pub use explaining::{Explained, explain_step};
pub use failure::Failure;
pub use latest::Latest;
pub use laws::{
    each_choice_is_told_where_it_stands, followed_run_is_the_run, hart_that_is_not_told_stays,
    memory_changes_where_it_is_told, registers_change_where_they_are_told,
    store_conditional_fails_for_a_reason, told_list_goes_on,
};
pub use telling::tell_step;
pub use told::{Told, ToldAccess, Written};

mod bytes;
mod destination;
mod ending;
mod explaining;
mod failure;
mod held;
mod latest;
mod laws;
mod met;
mod telling;
mod told;
