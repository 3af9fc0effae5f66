//! How a command ends that decides whether runs hang.

ghost use Rattle.std.specs.Prelude.{◌≡◌};
ghost use Rattle.run_hangs.specs.Status.{run_code, status_of_hang};

use byte_io::Status;

/// How a command ends that decides whether runs hang.
#[derive(Clone, Copy, PartialEq, Eq)]
pub enum RunStatus {
    /// As any command.
    Of(Status),
    /// A run hangs, and none has failed otherwise.
    Hangs,
}

impl RunStatus {
    /// The exit status as a number.
    pub fn code(self) -> u8
        ensures { result ≡ run_code self }
    {
        match self {
            RunStatus::Of(status) => status.code(),
            RunStatus::Hangs => 7,
        }
    }
}

/// The status of a run, given whether it hangs and what its status is without that: a broken rule
/// or property comes first, then a fault, then a hang.
pub fn status_of_hang(hangs: bool, status: Status) -> RunStatus
    ensures { result ≡ status_of_hang hangs status }
{
    match (hangs, status) {
        (true, Status::Done) => RunStatus::Hangs,
        _ => RunStatus::Of(status),
    }
}
