//! Tests of `cmd_asm`, `debug_text`, `cmd_debug` and the crates of hints.
#![tactic(auto)]

#[cfg(test)]
mod asm_engine_tests;
#[cfg(test)]
mod debug_commands_tests;
#[cfg(test)]
mod debug_engine_tests;
#[cfg(test)]
mod debug_symbols_tests;
#[cfg(test)]
mod told_tests;
#[cfg(test)]
mod words_tests;
