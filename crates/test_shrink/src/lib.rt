//! Tests of `cmd_shrink`.
#![tactic(auto)]

#[cfg(test)]
mod engine_tests;
#[cfg(test)]
mod list_tests;
#[cfg(test)]
mod property_tests;
#[cfg(test)]
mod refused_tests;
#[cfg(test)]
mod worked;
