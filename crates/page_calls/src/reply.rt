//! What a call leaves in its output.

ghost use Rattle.std.specs.Prelude.{◌≡◌, ◌<◌, ◌≤◌, IfSome, None, drop, length, take};
ghost use Rattle.page_calls.specs.Replies.{KeepsRest, TellsFault, TellsText};

use byte_io::Status;
use std::alloc::Allocator;
use std::fmt;

/// The text at the front of an output, and the command's status.
#[derive(Clone, Copy, PartialEq, Eq)]
pub struct Told {
    /// The length of the text in bytes.
    pub length: usize,
    /// The status that the command ends with.
    pub status: Status,
}

/// What a call leaves in its output.
#[derive(Clone, Copy, PartialEq, Eq)]
pub enum Reply {
    /// What the command prints.
    Answered(Told),
    /// The command gives no answer; the text says why.
    Refused(Told),
    /// The text is longer than the output, which is as it was.
    NoRoom,
    /// Memory was refused, and the output is as it was.
    NoMemory,
}

// Puts a text in front of an output, and returns its length; `None` where it is too long.
fn put(text: &[u8], out: &mut [u8]) -> Option<usize>
    ensures there { IfSome result (λ n. (n ≤ length out.new) × (take n out.new ≡ text.now)) }
    ensures rest { IfSome result (λ n. drop n out.new ≡ drop n out.old) }
    ensures none { result ≡ None → (length out.new < length text.now) × (out.new ≡ out.old) }
{
    if out.len() < text.len() {
        return None;
    }
    out[..text.len()].copy_from_slice(text);
    Some(text.len())
}

/// The reply of a command that prints a text.
pub(crate) fn answered(text: &[u8], status: Status, out: &mut [u8]) -> Reply
    ensures told { TellsText text.now status out.new result }
    ensures kept { KeepsRest out.old out.new result }
{
    match put(text, out) {
        Some(length) => Reply::Answered(Told { length, status }),
        None => Reply::NoRoom,
    }
}

/// The reply of a command that gives no answer: the text of its fault. Where the output is too small
/// for that, there is none.
pub(crate) fn refused<A: Allocator>(
    alloc: A,
    fault: &impl fmt::Display,
    status: Status,
    out: &mut [u8],
) -> Reply
    ensures told { TellsFault status out.new result }
    ensures kept { KeepsRest out.old out.new result }
{
    let Ok(text) = format!(in alloc; "{fault}") else {
        return Reply::NoMemory;
    };
    match put(text.as_bytes(), out) {
        Some(length) => Reply::Refused(Told { length, status }),
        None => Reply::NoRoom,
    }
}
