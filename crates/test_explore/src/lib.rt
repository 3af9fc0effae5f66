//! Tests of searches through every schedule: `explore_space`.
#![tactic(auto)]

#[cfg(test)]
mod always_tests;
#[cfg(test)]
mod bound_tests;
#[cfg(test)]
mod end_tests;
#[cfg(test)]
mod exit_tests;
#[cfg(test)]
mod failing_tests;
#[cfg(test)]
mod own_word_tests;
#[cfg(test)]
mod section_tests;
#[cfg(test)]
mod world_tests;
