//! Tests of campaigns: `campaign_runs` and `cmd_campaign`.
#![tactic(auto)]

// Blocks of seeds, and failing ones.
#[cfg(test)]
mod block_tests;
#[cfg(test)]
mod failure_tests;
// Whether runs hang.
#[cfg(test)]
mod hang_tests;
// Harts that say `pause`.
#[cfg(test)]
mod pause_tests;
// Campaigns that a limit ends.
#[cfg(test)]
mod limit_tests;
// What the tests share.
#[cfg(test)]
mod plain_runs;
#[cfg(test)]
mod plans;
// Properties of one's own.
#[cfg(test)]
mod property_tests;
// Requests that are refused, and one seed's run.
#[cfg(test)]
mod refusal_tests;
#[cfg(test)]
mod seed_run_tests;
// Runs that end early.
#[cfg(test)]
mod early_end_tests;
// Worked summaries.
#[cfg(test)]
mod summary_tests;
// Words of memory.
#[cfg(test)]
mod word_tests;
