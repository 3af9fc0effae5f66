//! What a server answers in GDB's Remote Serial Protocol: stops, registers, memory, threads, the
//! description of the registers, and pieces of long texts. A function that appends fails only if
//! the host refuses memory; what stood is then still in front, and a part of the text may follow.
#![tactic(auto)]

pub use digits::{push_byte, push_bytes, push_number, push_word};
pub use fixed::FixedReply;
pub use laws::{
    bytes_read_back, numbers_read_back, pieces_fit, pieces_go_on, pieces_make_the_whole,
    registers_read_back,
};
pub use pieces::push_piece;
pub use registers::push_registers;
pub use stop::{Reason, Signal, Stop, push_stop, signal_of};
pub use target::target_document;
pub use thread_list::{push_thread_list, push_thread_state};
pub use threads::{push_current_thread, push_thread_numbers};

mod digits;
mod fixed;
mod laws;
mod pieces;
mod registers;
mod stop;
mod target;
mod thread_list;
mod threads;
