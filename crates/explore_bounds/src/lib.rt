//! The exact bound on each hart's own steps, by where turns lead and how many steps they take.
#![tactic(auto)]

pub use bound::{Bound, own_bound};

mod bound;
mod limit;
mod raising;
mod rounds;
