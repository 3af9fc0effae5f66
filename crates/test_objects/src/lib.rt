//! Tests of the consensus objects: `object_library` and `object_adopt`.
#![tactic(auto)]

#[cfg(test)]
mod adopt_tests;
#[cfg(test)]
mod every_schedule_tests;
#[cfg(test)]
mod library_tests;
#[cfg(test)]
mod rounds_tests;
#[cfg(test)]
mod stepping;
