//! Consensus by one atomic instruction, and by load-reserved and store-conditional: the images, and
//! what holds in all of their runs.
#![tactic(auto)]

pub use amo::{add_image, add_in_every_run, swap_image, swap_in_every_run};
pub use lrsc::{lrsc_image, lrsc_in_every_run};

mod amo;
mod lrsc;
