//! Histories of harts on threads: their texts, the choices that they stand for, and their replay.
#![tactic(auto)]

pub use chosen::chosen_harts;
pub use entry::Entry;
pub use example::history_in_an_example;
pub use history_text::{HistoryFault, read_history};
pub use laws::{
    history_is_read_as_spelled, history_is_refused_as_spoiled, history_texts_are_decided,
    one_history, printed_history_is_read,
};
pub use plain::history_of;
pub use plain_text::choices_text;
pub use printing::print_history;
pub use replay::replay_history;

mod chosen;
mod entry;
mod example;
mod history_text;
mod laws;
mod plain;
mod plain_text;
mod printing;
mod replay;
