//! What is asked of threads.
ghost use Rattle.std.specs.Prelude.{◌≡◌, ◌++◌, OnOk, OnErr};
ghost use Rattle.gdb_replies.specs.Fronts.{BeginsWith};
ghost use Rattle.gdb_replies.specs.Threads.{thread_list, thread_numbers};
ghost use Rattle.gdb_session.specs.Answers.{done_if, hart_state_text, part_text, thread_hart};
ghost use Rattle.gdb_session.specs.Harts.{hart_of_thread};
ghost use Rattle.gdb_session.specs.Talk.{hart_count, harts_seen, talk_of};

use crate::fixed::push_fixed;
use crate::talk::Talk;
use gdb_replies::{
    FixedReply, push_piece, push_thread_list, push_thread_numbers, push_thread_state,
};
use std::alloc::{AllocError, Allocator};

/// Appends whether a thread is there.
pub fn push_is_there<A: Allocator + Copy>(
    talk: &Talk<A>,
    out: &mut Vec<u8, A>,
    thread: u32,
) -> Result<(), AllocError>
    ensures ok { OnOk result (out.new.items ≡ out.old.items
        ++ done_if (hart_of_thread (hart_count (talk_of talk.now)) thread)) }
    ensures kept { OnErr result (BeginsWith out.new.items out.old.items) }
{
    match talk.hart_of_thread(thread) {
        Some(_) => push_fixed(out, FixedReply::Done),
        None => push_fixed(out, FixedReply::BadOperand),
    }
}

/// Appends the numbers of all threads.
pub fn push_all_threads<A: Allocator + Copy>(
    talk: &Talk<A>,
    out: &mut Vec<u8, A>,
) -> Result<(), AllocError>
    ensures ok { OnOk result (out.new.items ≡ out.old.items
        ++ thread_numbers (hart_count (talk_of talk.now))) }
    ensures kept { OnErr result (BeginsWith out.new.items out.old.items) }
{
    push_thread_numbers(out, talk.debugger.machine().harts() as u32)
}

/// Appends what GDB shows beside a thread.
pub fn push_state<A: Allocator + Copy>(
    alloc: A,
    talk: &Talk<A>,
    out: &mut Vec<u8, A>,
    thread: u32,
) -> Result<(), AllocError>
    ensures ok { OnOk result (out.new.items ≡ out.old.items
        ++ hart_state_text (thread_hart (talk_of talk.now) thread)) }
    ensures kept { OnErr result (BeginsWith out.new.items out.old.items) }
{
    let Some(hart) = talk.hart_of_thread(thread) else {
        return push_fixed(out, FixedReply::BadOperand);
    };
    push_thread_state(
        alloc,
        out,
        talk.debugger.machine().hart(hart as usize).state,
    )
}

/// Appends a piece of a text, or `E01` for one from behind its end.
pub fn push_part<A: Allocator>(
    out: &mut Vec<u8, A>,
    whole: &[u8],
    from: u32,
    length: u32,
) -> Result<(), AllocError>
    ensures ok { OnOk result (out.new.items ≡ out.old.items ++ part_text whole.now from length) }
    ensures kept { OnErr result (BeginsWith out.new.items out.old.items) }
{
    if whole.len() < from as usize {
        return push_fixed(out, FixedReply::BadOperand);
    }
    push_piece(out, whole, from, length)
}

/// Appends a piece of the list of threads.
pub fn push_list_part<A: Allocator + Copy>(
    alloc: A,
    talk: &Talk<A>,
    out: &mut Vec<u8, A>,
    from: u32,
    length: u32,
) -> Result<(), AllocError>
    ensures ok { OnOk result (out.new.items ≡ out.old.items
        ++ part_text (thread_list (harts_seen (talk_of talk.now))) from length) }
    ensures kept { OnErr result (BeginsWith out.new.items out.old.items) }
{
    let mut list = Vec::new(alloc);
    push_thread_list(&mut list, talk.debugger.machine().ends())?;
    push_part(out, &list, from, length)
}
