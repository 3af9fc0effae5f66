//! Tests of runs in which a hart takes its local steps apart from the others: `thread_book`,
//! `thread_run` and `history`.
#![tactic(auto)]

// Books.
#[cfg(test)]
mod book_tests;
#[cfg(test)]
mod images;
// Requests that are refused; objects.
#[cfg(test)]
mod memory_tests;
#[cfg(test)]
mod object_tests;
// Histories, and runs of threads.
#[cfg(test)]
mod replay_tests;
#[cfg(test)]
mod runner_tests;
// Runs that tests share; seats.
#[cfg(test)]
mod runs;
#[cfg(test)]
mod seat_tests;
