//! Runs each hart on a thread of its own, with a lock for each bank of memory.
#![tactic(auto)]

pub use compare::{are_of_banks, are_of_harts};
pub use fault::RunFault;
pub use laws::{banked_runs_are_of_one_program, banked_runs_merge};
pub use runner::{Banked, run_banked};
pub use whole::are_of_a_run;

mod compare;
mod fault;
mod laws;
mod runner;
mod whole;
