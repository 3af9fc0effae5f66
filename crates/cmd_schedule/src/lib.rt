//! The engine of `schedule`: the choice text of a schedule that is the same in each run, or of what
//! a seed draws in a run of a program.
#![tactic(auto)]

pub use engine::{schedule_engine, seed_engine};
pub use laws::written_seeds_end_as_told;
pub use plan::{Plan, PlanFault, SeedPlan};

mod engine;
mod laws;
mod plan;
