//! A hart's next step, given its image and the bytes of at most two words.
#![tactic(auto)]

pub use image_bytes::{bytes_at, is_executable, is_unwritable, number_at};
pub use instr_table::InstrTable;
pub use steps::{
    CodeTouch, PlannedTouch, ToldWords, needed_word, planned_touch, settle, settle_known,
    settle_known_store, settle_store,
};
pub use words::Word;

mod image_bytes;
mod instr_table;
mod steps;
mod words;
