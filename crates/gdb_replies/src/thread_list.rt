//! What is said of threads: whether they run.
ghost use Rattle.std.specs.Prelude.{◌≡◌, ◌++◌, ◌<◌, ◌^◌, map, decimal, OnOk, OnErr};
ghost use Rattle.hart_step.specs.Hart.{hart_of};
ghost use Rattle.outcome.specs.Ends.{cause_name};
ghost use Rattle.gdb_replies.specs.Digits.{bytes_text};
ghost use Rattle.gdb_replies.specs.Fronts.{BeginsWith};
ghost use Rattle.gdb_replies.specs.Threads.{hart_name, thread_element, thread_list, thread_state_text, thread_tag};

use crate::digits::push_bytes;
use crate::threads::push_thread;
use hart_step::{Cause, Hart, HartState};
use itoa::Buffer;
use std::alloc::{AllocError, Allocator};
use trace_text::cause_name;

// Appends why a hart was stopped by its instruction.
#[tactic(auto, unfolding(trace_text::specs::Values::cause_text))]
fn push_cause<A: Allocator>(out: &mut Vec<u8, A>, cause: Cause) -> Result<(), AllocError>
    ensures ok { OnOk result (out.new.items ≡ out.old.items ++ cause_name cause) }
    ensures kept { OnErr result (BeginsWith out.new.items out.old.items) }
{
    out.extend_from_slice(cause_name(cause).as_bytes())
}

// Appends what GDB shows beside a thread.
#[tactic(auto, unfolding(crate::specs::Threads::thread_state_text))]
fn push_state<A: Allocator>(out: &mut Vec<u8, A>, state: HartState) -> Result<(), AllocError>
    ensures ok { OnOk result (out.new.items ≡ out.old.items ++ thread_state_text state) }
    ensures kept { OnErr result (BeginsWith out.new.items out.old.items) }
{
    match state {
        HartState::Running => out.extend_from_slice(b"running"),
        HartState::Exited(status) => {
            out.extend_from_slice(b"exited a0 ")?;
            push_bytes(out, &status.to_be_bytes())
        }
        HartState::Faulted(cause) => {
            out.extend_from_slice(b"faulted ")?;
            push_cause(out, cause)
        }
    }
}

/// Appends the answer to `qThreadExtraInfo`: in digits, what GDB shows beside the thread of a hart.
pub fn push_thread_state<A: Allocator>(
    alloc: A,
    out: &mut Vec<u8, A>,
    state: HartState,
) -> Result<(), AllocError>
    ensures ok { OnOk result (out.new.items
        ≡ out.old.items ++ bytes_text (thread_state_text state)) }
    ensures kept { OnErr result (BeginsWith out.new.items out.old.items) }
{
    let mut text = Vec::new(alloc);
    push_state(&mut text, state)?;
    push_bytes(out, &text)
}

// Appends a number in decimal.
fn push_decimal<A: Allocator>(out: &mut Vec<u8, A>, number: u64) -> Result<(), AllocError>
    ensures ok { OnOk result (out.new.items ≡ out.old.items ++ decimal number) }
    ensures kept { OnErr result (BeginsWith out.new.items out.old.items) }
{
    let mut buffer = Buffer::new();
    out.extend_from_slice(buffer.format(number).as_bytes())
}

// Appends the name of a hart.
#[tactic(auto, unfolding(crate::specs::Threads::hart_name))]
fn push_name<A: Allocator>(out: &mut Vec<u8, A>, hart: u64) -> Result<(), AllocError>
    ensures ok { OnOk result (out.new.items ≡ out.old.items ++ hart_name hart) }
    ensures kept { OnErr result (BeginsWith out.new.items out.old.items) }
{
    out.extend_from_slice(b" name=\"hart ")?;
    push_decimal(out, hart)?;
    out.push(b'"')?;
    Ok(())
}

// Appends the begin of the thread of a hart.
#[tactic(auto, unfolding(crate::specs::Threads::thread_tag))]
fn push_tag<A: Allocator>(out: &mut Vec<u8, A>, hart: u64) -> Result<(), AllocError>
    requires { hart < 2 ^ 63 }
    ensures ok { OnOk result (out.new.items ≡ out.old.items ++ thread_tag hart) }
    ensures kept { OnErr result (BeginsWith out.new.items out.old.items) }
{
    out.extend_from_slice(b"<thread id=\"")?;
    push_thread(out, hart)?;
    out.push(b'"')?;
    push_name(out, hart)?;
    out.push(b'>')?;
    Ok(())
}

// Appends the thread of a hart.
#[tactic(auto, unfolding(crate::specs::Threads::thread_element))]
fn push_thread_element<A: Allocator>(
    out: &mut Vec<u8, A>,
    hart: u64,
    state: HartState,
) -> Result<(), AllocError>
    requires { hart < 2 ^ 63 }
    ensures ok { OnOk result (out.new.items ≡ out.old.items ++ thread_element hart state) }
    ensures kept { OnErr result (BeginsWith out.new.items out.old.items) }
{
    push_tag(out, hart)?;
    push_state(out, state)?;
    out.extend_from_slice(b"</thread>")
}

/// Appends the list of threads, in XML, of harts that are numbered from 0.
pub fn push_thread_list<A: Allocator>(
    out: &mut Vec<u8, A>,
    harts: &[Hart],
) -> Result<(), AllocError>
    ensures ok { OnOk result (out.new.items ≡ out.old.items
        ++ thread_list (map hart_of harts.now)) }
    ensures kept { OnErr result (BeginsWith out.new.items out.old.items) }
{
    out.extend_from_slice(b"<threads>")?;
    'harts: for (number, hart) in harts.iter().enumerate() {
        push_thread_element(out, number as u64, hart.state)?;
    }
    out.extend_from_slice(b"</threads>")
}
