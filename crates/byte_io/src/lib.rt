//! Sources of bytes and sinks for them, the exit statuses of commands, and the reports of their
//! progress.
#![tactic(auto)]

pub use device::{DeviceFault, Sink, Source};
pub use failing::{Failing, FullSink};
pub use in_memory::{MemorySink, MemorySource};
pub use progress::{Progress, Unheard};
pub use status::Status;
pub use stream::{ReaderSource, WriterSink};
pub use transfer::{ReadFault, read_all, write_all};

mod device;
mod failing;
mod in_memory;
mod progress;
mod status;
mod stream;
mod transfer;
