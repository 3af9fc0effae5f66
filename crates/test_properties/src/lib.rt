//! Tests of `property_judge`, `property_text`, `run_hangs` and `cmd_properties`.
#![tactic(auto)]

#[cfg(test)]
mod comparison_tests;
#[cfg(test)]
mod hang_tests;
#[cfg(test)]
mod object_tests;
#[cfg(test)]
mod run_tests;
#[cfg(test)]
mod shown_tests;
#[cfg(test)]
mod text_tests;
