//! What a trace writes: the lines of JSON and the rows of a table in Markdown, and the values of
//! JSON that the lines are made of.
#![tactic(auto)]

pub use array::push_numbers;
pub use effect::Effect;
pub use head::{HartThen, Span};
pub use head_line::push_head;
pub use laws::{numbers_read_back, strings_read_back};
pub use line::push_line;
pub use names::{cause_name, kind_name};
pub use scalar::{push_flag, push_number, push_number_or_null};
pub use string::push_string;
pub use table::{push_head_rows, push_row};

mod array;
mod cell;
mod effect;
mod effects;
mod harts;
mod head;
mod head_line;
mod laws;
mod line;
mod names;
mod scalar;
mod string;
mod symbols;
mod table;
mod values;
