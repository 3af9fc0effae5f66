//! The debugger's commands: parses a line, and gives the text of its answer.
#![tactic(auto)]

pub use address::address_meant;
pub use answer::Answer;
pub use commands::Command;
pub use fault::DebugFault;
pub use laws::{lines_are_commands_of_words, numbers_are_no_names};
pub use line::{command, next_word, read_command};
pub use number::{address_of, decimal_of};
pub use register_names::{Register, RegisterList, register_named};
pub use replies::obey;
pub use steps_text::{mark_text, push_step};

mod address;
mod answer;
mod code_text;
mod commands;
mod fault;
mod help;
mod laws;
mod line;
mod memory_text;
mod number;
mod register_names;
mod registers_text;
mod replies;
mod steps_text;
mod texts;
