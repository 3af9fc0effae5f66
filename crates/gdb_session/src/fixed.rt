//! Answers without a value.
ghost use Rattle.std.specs.Prelude.{◌≡◌, ◌++◌, OnOk, OnErr};
ghost use Rattle.gdb_replies.specs.Fixed.{fixed_text};
ghost use Rattle.gdb_replies.specs.Fronts.{BeginsWith};

use gdb_replies::FixedReply;
use std::alloc::{AllocError, Allocator};

/// Appends an answer without a value.
pub fn push_fixed<A: Allocator>(out: &mut Vec<u8, A>, reply: FixedReply) -> Result<(), AllocError>
    ensures ok { OnOk result (out.new.items ≡ out.old.items ++ fixed_text reply) }
    ensures kept { OnErr result (BeginsWith out.new.items out.old.items) }
{
    out.extend_from_slice(reply.text().as_bytes())
}
