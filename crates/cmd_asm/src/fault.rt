//! Why sources give no file and no listing.

ghost use Rattle.std.specs.Prelude.{◌≡◌};
ghost use Rattle.cmd_asm.specs.Faults.{fault_of_assembler, assembly_status};

use asm_statement::{AsmFault, Fault};
use byte_io::Status;
use thiserror::Error;

/// Why sources give no file and no listing. The text of each is printed after `rvcons: ` on
/// standard error; for a source that can't be read the program prints its path instead.
#[derive(Clone, Copy, Debug, PartialEq, Eq, Error)]
pub enum AssemblyFault {
    /// A statement is wrong.
    #[error("asm fault {} {} at {}:{}", .0.kind.number(), .0.kind, .0.source, .0.line)]
    Wrong(Fault),
    /// The source at this index can't be read to its end.
    #[error("cannot read")]
    Read(usize),
    /// The source at this index isn't UTF-8.
    #[error("cannot read")]
    NotText(usize),
    /// The output can't be written.
    #[error("cannot write -")]
    Write,
    /// Out of memory.
    #[error("out of memory")]
    Memory,
}

impl AssemblyFault {
    /// The exit status of the command.
    pub fn status(self) -> Status
        ensures { result ≡ assembly_status self }
    {
        match self {
            AssemblyFault::Wrong(_)
            | AssemblyFault::Read(_)
            | AssemblyFault::NotText(_)
            | AssemblyFault::Write => Status::Refused,
            AssemblyFault::Memory => Status::NoMemory,
        }
    }
}

impl From<AsmFault> for AssemblyFault {
    ghost from_gives = { λ fault answer. answer ≡ fault_of_assembler fault };

    fn from(fault: AsmFault) -> AssemblyFault {
        match fault {
            AsmFault::At(fault) => AssemblyFault::Wrong(fault),
            AsmFault::Memory => AssemblyFault::Memory,
        }
    }
}
