//! Schedules: which hart takes each step, and which store-conditionals are refused; their choices
//! as lists, and a machine's runs over them.
#![tactic(auto)]

pub use chance::{Chance, MOST_ONE_IN};
pub use change_points::ChangePoints;
pub use even::seeded_generator;
pub use laws::{
    a_burst_begins_within_its_bounds, a_burst_is_of_one_hart, a_hart_that_falls_waits,
    a_hart_that_pauses_falls, a_stopped_hart_waits, change_points_are_places,
    each_hart_has_a_place, more_steps_change_nothing, never_refuses,
    nothing_changes_once_all_have_stopped, one_in_1_refuses_each, usual_refusals,
};
pub use limits::limits_of_draws;
pub use listing::{list_run, list_schedule};
pub use order::{Depth, MOST_DEPTH, MOST_MEAN, Mean, Order};
pub use refusals::Refusals;
pub use running::run_schedule;
pub use schedule::{Draw, Schedule};
pub use steps::Steps;

mod bursts;
mod chance;
mod change_points;
mod chooser;
mod even;
mod laws;
mod limits;
mod listing;
mod mixed;
mod order;
mod priorities;
mod refusals;
mod running;
mod schedule;
mod spinning;
mod steps;
mod turns;
