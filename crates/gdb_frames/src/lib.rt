//! The frames of GDB's Remote Serial Protocol: bytes to packets and acknowledgments, and text to
//! framed bytes.
#![tactic(auto)]

pub use digits::{hex_digit, hex_value};
pub use found::{Advance, Found, FrameFault, Place};
pub use laws::{
    escaped_is_data, escapes_are_undone, framed_is_read, plain_text_is_kept, read_as_in_the_grammar,
};
pub use reader::FrameReader;
pub use sum::checksum;
pub use writing::push_framed;

mod digits;
mod found;
mod laws;
mod reader;
mod sum;
mod writing;
