//! Tests of schedules with a bounded number of preemptions: `campaign_bounded` and
//! `cmd_bounded`.
#![tactic(auto)]

#[cfg(test)]
mod force_tests;
#[cfg(test)]
mod refusal_tests;
#[cfg(test)]
mod report_tests;
