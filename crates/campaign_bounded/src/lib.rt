//! Every schedule of a program with a bounded number of preemptions, one after another.
#![tactic(auto)]

pub use laws::{
    each_list_begins_a_schedule, each_schedule_is_one, idle_choices_do_nothing,
    schedules_are_bounded,
};
pub use schedule::Schedule;
pub use schedules::Schedules;

mod fair;
mod judging;
mod laws;
mod node;
mod schedule;
mod schedules;
