//! Tests of `byte_io`, `program_open`, `outcome`, `cmd_run`, `cmd_replay`, `cmd_schedule`,
//! `cli_args`, `cli_orders` and `cli_report`.
#![tactic(auto)]

// Command lines.
#[cfg(test)]
mod explain_tests;
#[cfg(test)]
mod line_tests;
#[cfg(test)]
mod order_texts;
// Parts of commands, and replays.
#[cfg(test)]
mod part_tests;
#[cfg(test)]
mod replay_tests;
// Rules and schedules.
#[cfg(test)]
mod rule_tests;
#[cfg(test)]
mod schedule_tests;
