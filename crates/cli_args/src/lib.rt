//! The arguments of all commands, the order of `run`, and numbers and inputs.
#![tactic(auto)]

pub use arguments::{is_set, text_of, texts_of};
pub use choice_text::{ChoiceText, SeedText, choice_text_of};
pub use explain::{Explain, explain_of, explain_said};
pub use inputs::{part_len, read_input, read_inputs, read_word};
pub use line::{LineFault, match_line, read_run};
pub use numbers::read_number;
pub use run_line::{RunOrder, run_order};

mod arguments;
mod choice_text;
mod commands;
mod explain;
mod help;
mod inputs;
mod line;
mod numbers;
mod run_line;
