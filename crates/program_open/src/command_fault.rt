//! Why a command that runs or shows a program gives no answer.

ghost use Rattle.std.specs.Prelude.{◌≡◌};
ghost use Rattle.program_open.specs.CommandFaults.{status_of_fault, fault_of_choices, fault_of_elf};
ghost use Rattle.program_open.specs.CommandFaults.{fault_of_hex, fault_of_start};

use crate::hex::HexFault;
use byte_io::Status;
use image::ElfFault;
use machine::StartFault;
use sched_text::ChoiceFault;
use thiserror::Error;

/// An input of a command.
#[derive(Clone, Copy, Debug, PartialEq, Eq)]
pub enum Input {
    /// The program.
    File,
    /// The choice text.
    Choices,
    /// The history text.
    History,
}

/// Why a command gives no answer. The text of each is printed after `rvcons: ` on standard error;
/// for an input that can't be read the program prints its path instead.
#[derive(Clone, Copy, Debug, PartialEq, Eq, Error)]
pub enum CommandFault {
    /// This item of the hexadecimal program, from 0, isn't a word.
    #[error("hex fault BadWord at {0}")]
    BadWord(usize),
    /// The hexadecimal program has more than `MOST_WORDS` words; this item, from 0, is the first
    /// too many.
    #[error("hex fault TooMany at {0}")]
    TooMany(usize),
    /// The loader rejects the file.
    #[error("{0}")]
    Elf(ElfFault),
    /// No input is given, so there would be no hart.
    #[error("start fault 1 NoHarts")]
    NoHarts,
    /// More inputs are given than a machine has harts.
    #[error("start fault 2 TooManyHarts")]
    TooManyHarts,
    /// The item at this offset of the choice text isn't a choice.
    #[error("choice fault BadChoice at {0}")]
    BadChoice(usize),
    /// The item at this offset of the choice text names a hart that doesn't exist.
    #[error("choice fault NoHart at {0}")]
    NoHart(usize),
    /// The item at this offset of the history text isn't an entry.
    #[error("history fault BadEntry at {0}")]
    BadEntry(usize),
    /// The item at this offset of the history text names a hart that doesn't exist.
    #[error("history fault NoHart at {0}")]
    NoHartOfEntry(usize),
    /// The run to shrink doesn't fail: under a rule it is kept, without one no hart has faulted,
    /// and if each hart must exit, it doesn't hang.
    #[error("shrink fault NothingFails")]
    NothingFails,
    /// Every schedule leads to more than this many worlds, so no answer was found.
    #[error("not decided: more than {0} worlds")]
    Undecided(usize),
    /// The host refused a thread.
    #[error("thread refused")]
    ThreadRefused,
    /// A hart was not in the state in which its own thread had left it.
    #[error("stale")]
    Stale,
    /// A thread's step would have needed a stamp of `u64::MAX` or above.
    #[error("stamps exhausted")]
    StampsExhausted,
    /// An access is in a hart's log but not in its bank's, or the other way round. No run leads
    /// here.
    #[error("merge fault Unmatched")]
    Unmatched,
    /// The stamps of a hart's log don't rise. No run leads here.
    #[error("merge fault OutOfOrder")]
    OutOfOrder,
    /// This input can't be read to its end.
    #[error("cannot read")]
    Read(Input),
    /// The output can't be written.
    #[error("cannot write -")]
    Write,
    /// Out of memory.
    #[error("out of memory")]
    Memory,
}

impl CommandFault {
    /// The exit status of a command with this fault.
    pub fn status(self) -> Status
        ensures { result ≡ status_of_fault self }
    {
        match self {
            CommandFault::BadWord(_)
            | CommandFault::TooMany(_)
            | CommandFault::Elf(_)
            | CommandFault::NoHarts
            | CommandFault::TooManyHarts
            | CommandFault::BadChoice(_)
            | CommandFault::NoHart(_)
            | CommandFault::BadEntry(_)
            | CommandFault::NoHartOfEntry(_)
            | CommandFault::NothingFails
            | CommandFault::ThreadRefused
            | CommandFault::Stale
            | CommandFault::StampsExhausted
            | CommandFault::Unmatched
            | CommandFault::OutOfOrder
            | CommandFault::Read(_)
            | CommandFault::Write => Status::Refused,
            CommandFault::Undecided(_) => Status::Undecided,
            CommandFault::Memory => Status::NoMemory,
        }
    }
}

impl From<HexFault> for CommandFault {
    ghost from_gives = { λ fault answer. answer ≡ fault_of_hex fault };

    fn from(fault: HexFault) -> CommandFault {
        match fault {
            HexFault::BadWord(item) => CommandFault::BadWord(item),
            HexFault::TooMany(item) => CommandFault::TooMany(item),
            HexFault::Memory => CommandFault::Memory,
        }
    }
}

impl From<ElfFault> for CommandFault {
    ghost from_gives = { λ fault answer. answer ≡ fault_of_elf fault };

    fn from(fault: ElfFault) -> CommandFault {
        match fault {
            ElfFault::Memory => CommandFault::Memory,
            fault => CommandFault::Elf(fault),
        }
    }
}

impl From<StartFault> for CommandFault {
    ghost from_gives = { λ fault answer. answer ≡ fault_of_start fault };

    fn from(fault: StartFault) -> CommandFault {
        match fault {
            StartFault::NoHarts => CommandFault::NoHarts,
            StartFault::TooManyHarts => CommandFault::TooManyHarts,
        }
    }
}

impl From<ChoiceFault> for CommandFault {
    ghost from_gives = { λ fault answer. answer ≡ fault_of_choices fault };

    fn from(fault: ChoiceFault) -> CommandFault {
        match fault {
            ChoiceFault::BadChoice(offset) => CommandFault::BadChoice(offset),
            ChoiceFault::NoHart(offset) => CommandFault::NoHart(offset),
            ChoiceFault::Memory => CommandFault::Memory,
        }
    }
}
