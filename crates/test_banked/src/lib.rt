//! Tests of the crates of banks, from `bank_memory` to `bank_threads`.
#![tactic(auto)]

pub use joined_reservations::joined;

// Single banks.
#[cfg(test)]
mod bank_histories;
#[cfg(test)]
mod bank_tests;
// Runs that are merged, and logs filled by hand.
#[cfg(test)]
mod checked;
#[cfg(test)]
mod hand_tests;
mod joined_reservations;
// Requests that are refused, and merges.
#[cfg(test)]
mod memory_tests;
#[cfg(test)]
mod merging;
// Objects, and programs of tests.
#[cfg(test)]
mod object_tests;
#[cfg(test)]
mod programs;
// Runs, and exhausted stamps.
#[cfg(test)]
mod run_tests;
#[cfg(test)]
mod stamp_tests;
// The example of docs/BANKS.md.
#[cfg(test)]
mod swap_tests;
