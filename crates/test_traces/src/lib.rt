//! Tests of `cmd_trace`.
#![tactic(auto)]

#[cfg(test)]
mod engine_tests;
#[cfg(test)]
mod failure_tests;
#[cfg(test)]
mod refused_tests;
#[cfg(test)]
mod word_tests;
#[cfg(test)]
mod worked;
