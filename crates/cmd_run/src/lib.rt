//! The engines of `run`, `list` and `info`.
#![tactic(auto)]

pub use byte_io::{
    DeviceFault, Failing, FullSink, MemorySink, MemorySource, ReadFault, ReaderSource, Sink,
    Source, Status, WriterSink, read_all, write_all,
};
pub use file::{FileView, file_engine, file_text};
pub use info::{RightsText, SymbolOrder, info_text, library_of, shown_symbols};
pub use isa_names::Word;
pub use outcome::{EndLine, Exit, Expect};
pub use program_open::{
    CommandFault, HEX_BASE, HEX_SIZE, HexFault, Input, MOST_WORDS, ProgramForm, deliver, hex_image,
    read_hex, read_image, read_program, write_text,
};
pub use run::{run_engine, run_text};
pub use shown::ends_text;

mod file;
mod info;
mod run;
mod shown;
