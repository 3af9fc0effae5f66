//! Tests of the crates of GDB's protocol below its commands.
#![tactic(auto)]

#[cfg(test)]
mod after_tests;
#[cfg(test)]
mod frames_tests;
#[cfg(test)]
mod moves_tests;
#[cfg(test)]
mod replies_tests;
#[cfg(test)]
mod requests_tests;
#[cfg(test)]
mod run;
#[cfg(test)]
mod session_after_tests;
#[cfg(test)]
mod session_moves_tests;
#[cfg(test)]
mod session_resume_tests;
#[cfg(test)]
mod session_tests;
