//! `list` and `info`: what is shown of an ELF file.

ghost use Rattle.std.specs.Prelude.{◌≡◌};
ghost use Rattle.page_calls.specs.Replies.{KeepsRest};
ghost use Rattle.page_calls.specs.Shown.{TellsFile};

use crate::reply::{Reply, answered};
use crate::running::refused_by;
use byte_io::Status;
use cmd_run::{FileView, file_text};
use std::alloc::Allocator;

/// `list` or `info`: what is shown of an ELF file.
pub fn file_call<A: Allocator + Copy>(
    alloc: A,
    view: FileView,
    file: &[u8],
    out: &mut [u8],
) -> Reply
    ensures told { TellsFile view file.now out.new result }
    ensures kept { KeepsRest out.old out.new result }
{
    match file_text(alloc, view, file) {
        Ok(text) => answered(text.as_bytes(), Status::Done, out),
        Err(fault) => refused_by(alloc, fault, out),
    }
}
