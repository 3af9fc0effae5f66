//! What the debugger shows at a terminal beside its answers.
#![tactic(auto)]

pub use greeting::GREETING;
pub use lines::line_advice;
pub use next::next_text;
pub use prompt::Prompt;
pub use stops::{Before, stops_text};
pub use stored::{StoredWord, watched_word, word_before};

mod greeting;
mod lines;
mod next;
mod prompt;
mod registers;
mod stops;
mod stored;
