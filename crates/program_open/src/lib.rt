//! Opens a program and a run: bytes to image, the faults of all commands, and how their answers are
//! written.
#![tactic(auto)]

pub use command_fault::{CommandFault, Input};
pub use delivery::{deliver, write_text};
pub use hex::{HexFault, MOST_WORDS, read_hex};
pub use hex_program::{HEX_BASE, HEX_SIZE, hex_image};
pub use limits::{hex_programs_have_their_place, hex_texts_are_decided};
pub use opening::{OpenRun, OpenText, open_run, open_text};
pub use program::{ProgramForm, read_image, read_program};
pub use start::{OpenProgram, open_program};

mod command_fault;
mod delivery;
mod hex;
mod hex_program;
mod limits;
mod opening;
mod program;
mod start;
