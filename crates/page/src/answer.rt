//! What an export answers.

ghost use Rattle.byte_io.specs.Status.{code_of};
ghost use Rattle.byte_io.specs.declared.status.Status.TheVariants.{BadLine};
ghost use Rattle.page.specs.Answers.{HasNumbers, IsReply};

use byte_io::Status;
use page_calls::Reply;

/// What a call left in its output, in numbers.
#[repr(C)]
#[derive(Clone, Copy)]
pub struct Answer {
    /// How many bytes stand in front of the output: what the command prints, or why it doesn't.
    pub length: u64,
    /// The status that the command ends with.
    pub status: u32,
    /// What stands in the output: 0 what the command prints, 1 the text of a fault; 2 nothing,
    /// since it has too little room; 3 nothing, since memory was refused; 4 nothing, since the
    /// numbers of the call ask for nothing.
    pub kind: u32,
}

impl Answer {
    /// The answer to a call whose numbers ask for nothing.
    pub(crate) fn unasked() -> Answer
        ensures { HasNumbers 0 (code_of BadLine) 4 result }
    {
        Answer::told(0, Status::BadLine, 4)
    }

    // A text of this length, with a status.
    fn told(length: usize, status: Status, kind: u32) -> Answer
        ensures { HasNumbers length (code_of status) kind result }
    {
        Answer {
            length: length as u64,
            status: status.code() as u32,
            kind,
        }
    }
}

impl From<Reply> for Answer {
    fn from(reply: Reply) -> Answer
        ensures { IsReply reply result }
    {
        match reply {
            Reply::Answered(told) => Answer::told(told.length, told.status, 0),
            Reply::Refused(told) => Answer::told(told.length, told.status, 1),
            Reply::NoRoom => Answer::told(0, Status::Refused, 2),
            Reply::NoMemory => Answer::told(0, Status::NoMemory, 3),
        }
    }
}
