//! The engine of `trace`.
#![tactic(auto)]

pub use plan::{TraceForm, TracePlan};
pub use trace::trace_engine;

mod counting;
mod cursor;
mod entries;
mod opening;
mod output;
mod page;
mod plan;
mod teller;
mod trace;
mod writing;
