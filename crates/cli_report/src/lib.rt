//! Opens a run's files, reads the names of objects, and reports faults and progress on standard
//! error.
#![tactic(auto)]

pub use arguments::read_arguments;
pub use audience::Audience;
pub use either_source::EitherSource;
pub use explain::{
    RunFiles, ends_running, explain_ends, explain_line, explain_run, read_again, show,
};
pub use files::{
    ChoiceSource, is_same_file, open_both, open_one, open_run, read_input_to_end, say_why,
};
pub use hint_fault::{EndsTold, Explained, push_instruction, push_standing};
pub use objects::{read_object, read_rule};
pub use output_file::{OutputFault, OutputFile, PROGRAM_MODE, TEXT_MODE};
pub use places::explain_places;
pub use progress_line::{WIPE, wipe_line};
pub use report::{
    HANGS_OR_MUST_EXIT, bad_line, cannot_open, cannot_read, cannot_write, out_of_memory, refuse,
    refuse_line, say, would_overwrite,
};
pub use run_choices::RunChoices;
pub use said::{form_said, inputs_said, rule_said};
pub use standard_output::{StandardOutput, print_answer, print_text};

mod arguments;
mod audience;
mod either_source;
mod explain;
mod files;
mod objects;
mod output_file;
mod places;
mod progress_line;
mod report;
mod run_choices;
mod said;
mod standard_output;
