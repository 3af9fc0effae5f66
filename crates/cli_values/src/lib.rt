//! Parses the texts of an order to what the engines take: schedules, campaigns, explorations.
#![tactic(auto)]

pub use bounds::{BOUNDS, BoundedNumbers, read_bounds};
pub use campaign::{SeedNumbers, read_report, read_seed_numbers};
pub use cmd_schedule::{Plan, PlanFault, SeedPlan, schedule_engine, seed_engine};
pub use draw::{
    DRAWS, DrawFault, NO_POINTS, OrderFault, REFUSALS, WITHIN, read_draw, read_order, read_points,
    read_refusals,
};
pub use explore::{WORLDS, read_worlds};
pub use jobs::{JOBS, read_jobs};
pub use schedule::{read_schedule, read_seed_plan};
pub use seconds::{SECONDS, read_seconds};

mod bounds;
mod campaign;
mod draw;
mod explore;
mod jobs;
mod schedule;
mod seconds;
