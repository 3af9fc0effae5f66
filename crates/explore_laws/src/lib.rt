//! Turns, each a choice with the steps that its hart takes at once behind it, and why they stand
//! for every run.
#![tactic(auto)]

pub use laws::{
    every_run_has_turns, exact_bounds_are_one, falling_numbers_are_bounds, paths_are_taken,
    rounds_have_no_bound, steps_in_turns_are_choices, taken_numbers_are_exact, turns_are_runs,
};

mod laws;
