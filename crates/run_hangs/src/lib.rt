//! When a run hangs: some hart still runs however its harts go on for a number of steps.
#![tactic(auto)]

pub use asked::{Hangs, hangs_if};
pub use hanging::{FEWEST_STEPS, hangs_after, hangs_from, steps_for};
pub use laws::hang_has_its_own_code;
pub use running::{machine_after, take_step};
pub use status::{RunStatus, status_of_hang};

mod asked;
mod going_on;
mod hanging;
mod laws;
mod running;
mod status;
