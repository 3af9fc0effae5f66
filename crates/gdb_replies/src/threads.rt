//! The numbers of threads. Hart h is thread h + 1.
ghost use Rattle.std.specs.Prelude.{◌≡◌, ◌++◌, ◌<◌, ◌^◌, OnOk, OnErr};
ghost use Rattle.gdb_replies.specs.Digits.{number_text};
ghost use Rattle.gdb_replies.specs.Fronts.{BeginsWith};
ghost use Rattle.gdb_replies.specs.Threads.{current_thread, list_item, thread_numbers, thread_of};

use crate::digits::push_number;
use std::alloc::{AllocError, Allocator};

/// Appends the number of a hart's thread.
pub(crate) fn push_thread<A: Allocator>(out: &mut Vec<u8, A>, hart: u64) -> Result<(), AllocError>
    requires { hart < 2 ^ 63 }
    ensures ok { OnOk result (out.new.items ≡ out.old.items ++ number_text (thread_of hart)) }
    ensures kept { OnErr result (BeginsWith out.new.items out.old.items) }
{
    push_number(out, hart + 1)
}

/// Appends the answer to `qC`: the thread of a hart.
pub fn push_current_thread<A: Allocator>(out: &mut Vec<u8, A>, hart: u32) -> Result<(), AllocError>
    ensures ok { OnOk result (out.new.items ≡ out.old.items ++ current_thread hart) }
    ensures kept { OnErr result (BeginsWith out.new.items out.old.items) }
{
    out.extend_from_slice(b"QC")?;
    push_thread(out, u64::from(hart))
}

// Appends the thread of a hart, behind a comma unless it is the first.
#[tactic(auto, unfolding(crate::specs::Threads::list_item))]
fn push_list_item<A: Allocator>(out: &mut Vec<u8, A>, hart: u32) -> Result<(), AllocError>
    ensures ok { OnOk result (out.new.items ≡ out.old.items ++ list_item hart) }
    ensures kept { OnErr result (BeginsWith out.new.items out.old.items) }
{
    if hart == 0 {
        return push_thread(out, 0);
    }
    out.push(b',')?;
    push_thread(out, u64::from(hart))
}

/// Appends the answer to `qfThreadInfo`: the threads of so many harts.
pub fn push_thread_numbers<A: Allocator>(out: &mut Vec<u8, A>, harts: u32) -> Result<(), AllocError>
    ensures ok { OnOk result (out.new.items ≡ out.old.items ++ thread_numbers harts) }
    ensures kept { OnErr result (BeginsWith out.new.items out.old.items) }
{
    out.push(b'm')?;
    'harts: for hart in 0..harts {
        push_list_item(out, hart)?;
    }
    Ok(())
}
