//! Why a session ends with a fault.

ghost use Rattle.std.specs.Prelude.{◌≡◌};
ghost use Rattle.cmd_debug.specs.Opening.{debug_status};

use byte_io::Status;
use program_open::CommandFault;
use thiserror::Error;

/// Why a session ends with a fault. The text of each is printed after `rvcons: ` on standard error;
/// for an input that can't be read the program prints its path instead.
#[derive(Clone, Copy, Debug, PartialEq, Eq, Error)]
pub enum DebugEngineFault {
    /// No session begins: a run of the same program, inputs and choice text has this fault.
    #[error("{0}")]
    Refused(CommandFault),
    /// The commands can't be read.
    #[error("cannot read -")]
    Commands,
    /// The answers can't be written.
    #[error("cannot write -")]
    Answers,
    /// Out of memory within the session.
    #[error("out of memory")]
    Memory,
}

impl DebugEngineFault {
    /// The program's exit status.
    pub fn status(self) -> Status
        ensures { result ≡ debug_status self }
    {
        match self {
            DebugEngineFault::Refused(fault) => fault.status(),
            DebugEngineFault::Commands | DebugEngineFault::Answers => Status::Refused,
            DebugEngineFault::Memory => Status::NoMemory,
        }
    }
}
