//! The answer to a request that moves nothing.
ghost use Rattle.std.specs.Prelude.{◌≡◌, ◌++◌, false, OnOk, OnErr, IfOk};
ghost use Rattle.gdb_replies.specs.Fronts.{BeginsWith};
ghost use Rattle.gdb_replies.specs.Fixed.{fixed_text};
ghost use Rattle.gdb_replies.specs.declared.fixed.FixedReply.TheVariants as fixed;
ghost use Rattle.gdb_session.specs.Answers.{after_answer, answer_text, last_stop_text, next_after};
ghost use Rattle.gdb_session.specs.Talk.{talk_of};

use crate::changes::{choose_moves, choose_read, insert, remove};
use crate::fixed::push_fixed;
use crate::memory::push_memory;
use crate::registers::{push_hart_register, push_hart_registers};
use crate::talk::Talk;
use crate::threads::{push_all_threads, push_is_there, push_list_part, push_part, push_state};
use gdb_replies::{FixedReply, Stop, push_current_thread, push_stop, target_document};
use gdb_requests::Plain;
use std::alloc::{AllocError, Allocator};

/// What comes after a request.
#[derive(Clone, Copy, Debug, PartialEq, Eq)]
pub enum Next {
    /// It is answered, and the session goes on.
    Answered,
    /// It is a move, which is not done, and nothing was appended.
    Move,
    /// GDB leaves; it is answered, and the session ends.
    Detached,
    /// The session ends, and no answer is sent.
    Killed,
}

// What comes after a request.
#[tactic(auto, unfolding(crate::specs::Answers::next_after))]
fn next_after(plain: Plain) -> Next
    ensures { result ≡ next_after plain }
{
    match plain {
        Plain::Continue | Plain::Step | Plain::BackContinue | Plain::BackStep => Next::Move,
        Plain::Detach => Next::Detached,
        Plain::Kill => Next::Killed,
        _ => Next::Answered,
    }
}

// Appends the last stop.
fn push_last_stop<A: Allocator>(out: &mut Vec<u8, A>, stop: &Option<Stop>) -> Result<(), AllocError>
    ensures ok { OnOk result (out.new.items ≡ out.old.items ++ last_stop_text stop.now) }
    ensures kept { OnErr result (BeginsWith out.new.items out.old.items) }
{
    match stop {
        Some(stop) => push_stop(out, stop),
        None => push_fixed(out, FixedReply::FirstStop),
    }
}

// Tells what the server can do, and keeps whether GDB knows `swbreak`.
fn announce<A: Allocator + Copy>(
    talk: &mut Talk<A>,
    out: &mut Vec<u8, A>,
    software_stops: bool,
) -> Result<(), AllocError>
    ensures text { OnOk result (out.new.items ≡ out.old.items ++ fixed_text fixed.Features) }
    ensures after { OnOk result (talk_of talk.new
        ≡ record (talk_of talk.old) { software_stops = software_stops }) }
    ensures err { OnErr result (talk_of talk.new ≡ talk_of talk.old) }
    ensures kept { OnErr result (BeginsWith out.new.items out.old.items) }
{
    push_fixed(out, FixedReply::Features)?;
    talk.software_stops = software_stops;
    Ok(())
}

// Stops acknowledgments.
fn end_acks<A: Allocator + Copy>(talk: &mut Talk<A>, out: &mut Vec<u8, A>) -> Result<(), AllocError>
    ensures text { OnOk result (out.new.items ≡ out.old.items ++ fixed_text fixed.Done) }
    ensures after { OnOk result (talk_of talk.new
        ≡ record (talk_of talk.old) { acknowledges = false }) }
    ensures err { OnErr result (talk_of talk.new ≡ talk_of talk.old) }
    ensures kept { OnErr result (BeginsWith out.new.items out.old.items) }
{
    push_fixed(out, FixedReply::Done)?;
    talk.acknowledges = false;
    Ok(())
}

// Appends the answer, and changes the state as it says.
#[tactic(auto, unfolding(crate::specs::Answers::answer_text, crate::specs::Answers::after_answer))]
fn reply<A: Allocator + Copy>(
    alloc: A,
    talk: &mut Talk<A>,
    plain: Plain,
    out: &mut Vec<u8, A>,
) -> Result<(), AllocError>
    ensures text { OnOk result (out.new.items
        ≡ out.old.items ++ answer_text (talk_of talk.old) plain) }
    ensures after { OnOk result (talk_of talk.new ≡ after_answer (talk_of talk.old) plain) }
    ensures err { OnErr result (talk_of talk.new ≡ talk_of talk.old) }
    ensures kept { OnErr result (BeginsWith out.new.items out.old.items) }
{
    match plain {
        Plain::Supported { software_stops } => announce(talk, out, software_stops),
        Plain::NoAcks => end_acks(talk, out),
        Plain::Reason => push_last_stop(out, &talk.stop),
        Plain::Target { from, length } => {
            push_part(out, target_document().as_bytes(), from, length)
        }
        Plain::ThreadList { from, length } => push_list_part(alloc, talk, out, from, length),
        Plain::FirstThreads => push_all_threads(talk, out),
        Plain::MoreThreads => push_fixed(out, FixedReply::EndOfThreads),
        Plain::ThreadState(thread) => push_state(alloc, talk, out, thread),
        Plain::CurrentThread => push_current_thread(out, talk.hart_read()),
        Plain::Attached => push_fixed(out, FixedReply::Attached),
        Plain::Symbols | Plain::Detach => push_fixed(out, FixedReply::Done),
        Plain::ReadThread(threads) => choose_read(talk, out, threads),
        Plain::MoveThreads(threads) => choose_moves(talk, out, threads),
        Plain::IsThere(thread) => push_is_there(talk, out, thread),
        Plain::Registers => push_hart_registers(talk, out),
        Plain::Register(register) => push_hart_register(talk, out, register),
        Plain::Memory { address, length } => {
            push_memory(talk.debugger.machine().store(), out, address, length)
        }
        Plain::Insert(point) => insert(talk, out, point),
        Plain::Remove(point) => remove(talk, out, point),
        Plain::Actions => push_fixed(out, FixedReply::Actions),
        Plain::Write => push_fixed(out, FixedReply::ReadOnly),
        Plain::Continue | Plain::Step | Plain::BackContinue | Plain::BackStep | Plain::Kill => {
            Ok(())
        }
    }
}

/// Appends the answer to a request, and returns what comes next. A move is not done, and has no
/// answer here; nor has `k`. When out of memory, nothing has changed, but a beginning of the answer
/// may have been appended.
pub fn answer_plain<A: Allocator + Copy>(
    alloc: A,
    talk: &mut Talk<A>,
    plain: Plain,
    out: &mut Vec<u8, A>,
) -> Result<Next, AllocError>
    ensures text { OnOk result (out.new.items
        ≡ out.old.items ++ answer_text (talk_of talk.old) plain) }
    ensures after { OnOk result (talk_of talk.new ≡ after_answer (talk_of talk.old) plain) }
    ensures next { IfOk result (λ next. next ≡ next_after plain) }
    ensures err { OnErr result (talk_of talk.new ≡ talk_of talk.old) }
    ensures kept { OnErr result (BeginsWith out.new.items out.old.items) }
{
    reply(alloc, talk, plain, out)?;
    Ok(next_after(plain))
}
