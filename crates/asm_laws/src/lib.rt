//! The laws of texts and files: sources are read as what they say, and their file and listing give
//! their own instructions.
#![tactic(auto)]

pub use faults::first_phase_decides;
pub use own::{listed_is_own, written_is_own};
pub use part_faults::lowest_fault_is_told;
pub use programs::texts_are_assembled;
pub use reads::{fault_is_the_first, read_is_said, texts_are_decided};
pub use tokens::{first_token_fault, tokens_are_lexed};

mod faults;
mod own;
mod part_faults;
mod programs;
mod reads;
mod tokens;
