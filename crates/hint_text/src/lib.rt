//! What explanations share: the line in question, the mark under a part of it, the nearest name,
//! sentences; the faults of a command line.
#![tactic(auto)]

pub use mark::push_mark;
pub use names::nearest;
pub use orders::{Mistake, order_advice};
pub use sentence::{Form, Part, Sentence, Value, push_sentence};
pub use source_line::{line_at, push_line};
pub use table::told_of;

mod mark;
mod names;
mod options;
mod orders;
mod sentence;
mod source_line;
mod table;
