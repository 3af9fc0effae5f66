//! Tests of `asm_assemble`, `isa_disasm` and `asm_round_trip`.
#![tactic(auto)]

#[cfg(test)]
mod library_tests;
#[cfg(test)]
mod listing_tests;
#[cfg(test)]
mod program_tests;
#[cfg(test)]
mod round_trip_tests;
