//! The exit statuses of the program.

ghost use Rattle.std.specs.Prelude.{◌≡◌};
ghost use Rattle.byte_io.specs.Status.{code_of};

/// How a command ends.
#[derive(Clone, Copy, PartialEq, Eq)]
pub enum Status {
    /// The command succeeded, or help was asked for.
    Done,
    /// An input is invalid, or a file can't be read or written.
    Refused,
    /// The command line is invalid.
    BadLine,
    /// A hart has faulted, and no rule was given; or a hart must exit and still runs.
    Faulted,
    /// The rule is broken.
    Broken,
    /// Out of memory.
    NoMemory,
    /// The question that was asked is not decided.
    Undecided,
}

impl Status {
    /// The exit status as a number.
    pub fn code(self) -> u8
        ensures { result ≡ code_of self }
    {
        match self {
            Status::Done => 0,
            Status::Refused => 1,
            Status::BadLine => 2,
            Status::Faulted => 3,
            Status::Broken => 4,
            Status::NoMemory => 5,
            Status::Undecided => 6,
        }
    }
}
