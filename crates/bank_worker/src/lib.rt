//! What each hart's thread does in a run with a lock for each bank.
#![tactic(auto)]

pub use fault::StepFault;
pub use job::Job;
pub use worker::work;

mod fault;
mod job;
mod step;
mod worker;
