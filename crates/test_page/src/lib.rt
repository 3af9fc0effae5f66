//! Tests of `page_calls`.
#![tactic(auto)]

#[cfg(test)]
mod call_tests;
#[cfg(test)]
mod refused_tests;
#[cfg(test)]
mod worked;
