//! Texts of items between blanks, each of which denotes a value: choice texts, history texts and
//! hexadecimal programs.
#![tactic(auto)]

pub use items::{is_blank, next_item};
pub use parts::{CAP, number, split_at_byte, split_mark};

mod items;
mod parts;
