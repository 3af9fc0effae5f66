//! How GDB moves through a fixed run: its breakpoints and watches, and moves to where they are hit.
#![tactic(auto)]

pub use alone_steps::{AloneSteps, Way, own_choice};
pub use goal::Goal;
pub use laws::{
    a_stop_is_no_passed_choice, nothing_is_passed_unseen, step_alone_is_the_choice_at_hand,
    step_back_alone_is_the_choice_below,
};
pub use moves::{backward, forward, step_back};
pub use moves_after::{backward_after, forward_after, step_any_after, step_back_after};
pub use points::Points;
pub use search::Search;
pub use seen::Seen;
pub use stop::{AddressRange, StopReason, ThreadStop, Whose};
pub use thread_steps::{step, step_after, step_alone};
pub use watch::Watch;

mod alone_steps;
mod goal;
mod hits;
mod laws;
mod moves;
mod moves_after;
mod passing;
mod points;
mod search;
mod seeing;
mod seen;
mod span;
mod stop;
mod thread_steps;
mod touching;
mod watch;
