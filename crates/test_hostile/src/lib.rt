//! Tests of failing devices and of malformed files.
#![tactic(auto)]

#[cfg(test)]
mod device_tests;
#[cfg(test)]
mod stranger_tests;
