//! Why and where threads stopped.
ghost use Rattle.std.specs.Prelude.{◌≡◌, ◌++◌, OnOk, OnErr};
ghost use Rattle.gdb_replies.specs.Fronts.{BeginsWith};
ghost use Rattle.gdb_replies.specs.Stops.{at_address, reason_text, register_pair, signal_number, signal_of_cause, stop_place, stop_reply, thread_pair};

use crate::digits::{push_byte, push_number, push_word};
use crate::threads::push_thread;
use hart_step::Cause;
use std::alloc::{AllocError, Allocator};

/// What a thread stops with.
#[derive(Clone, Copy, Debug, PartialEq, Eq)]
pub enum Signal {
    /// SIGILL, 4.
    Illegal,
    /// SIGTRAP, 5: also of a stop that is no fault.
    Trap,
    /// SIGBUS, 10.
    Bus,
    /// SIGSEGV, 11.
    Segment,
    /// SIGSYS, 12.
    System,
}

/// What has stopped a move, if it is no fault and no end of a step.
#[derive(Clone, Copy, Debug, PartialEq, Eq)]
pub enum Reason {
    /// `swbreak`: the thread stands at a software breakpoint.
    SoftwareBreakpoint,
    /// `hwbreak`: the thread stands at a hardware breakpoint.
    HardwareBreakpoint,
    /// `watch`: a byte at this address is changed.
    Write(u32),
    /// `rwatch`: a byte at this address is read.
    Read(u32),
    /// `awatch`: a byte at this address is accessed.
    Access(u32),
    /// `replaylog:end`: the list of choices has ended.
    ListEnd,
    /// `replaylog:begin`: there is no choice before.
    ListBegin,
}

/// A stop.
#[derive(Clone, Copy, Debug, PartialEq, Eq)]
pub struct Stop {
    /// What the thread stops with.
    pub signal: Signal,
    /// The hart that stopped, which is thread `hart + 1`.
    pub hart: u32,
    /// Its stack pointer, x2.
    pub sp: u32,
    /// Its frame pointer, x8.
    pub s0: u32,
    /// The address of its next instruction, or of the one that faulted.
    pub pc: u32,
    /// What stopped it; `None` for a fault, and where a step has ended.
    pub reason: Option<Reason>,
}

/// The signal of a fault.
#[tactic(auto, unfolding(crate::specs::Stops::signal_of_cause))]
pub fn signal_of(cause: Cause) -> Signal
    ensures { result ≡ signal_of_cause cause }
{
    match cause {
        Cause::FetchAccess | Cause::LoadAccess | Cause::StoreAccess => Signal::Segment,
        Cause::LoadMisaligned | Cause::StoreMisaligned | Cause::JumpMisaligned => Signal::Bus,
        Cause::Illegal => Signal::Illegal,
        Cause::BadCall => Signal::System,
        Cause::Break => Signal::Trap,
    }
}

// GDB's number of a signal.
#[tactic(auto, unfolding(crate::specs::Stops::signal_number))]
fn number_of(signal: Signal) -> u8
    ensures { result ≡ signal_number signal }
{
    match signal {
        Signal::Illegal => 4,
        Signal::Trap => 5,
        Signal::Bus => 10,
        Signal::Segment => 11,
        Signal::System => 12,
    }
}

// Appends a register by its number, in two digits, and its value.
#[tactic(auto, unfolding(crate::specs::Stops::register_pair))]
fn push_register<A: Allocator>(
    out: &mut Vec<u8, A>,
    number: &str,
    value: u32,
) -> Result<(), AllocError>
    ensures ok { OnOk result (out.new.items ≡ out.old.items ++ register_pair number.now value) }
    ensures kept { OnErr result (BeginsWith out.new.items out.old.items) }
{
    out.extend_from_slice(number.as_bytes())?;
    out.push(b':')?;
    push_word(out, value)?;
    out.push(b';')?;
    Ok(())
}

// Appends the thread of a hart.
#[tactic(auto, unfolding(crate::specs::Stops::thread_pair))]
fn push_thread_pair<A: Allocator>(out: &mut Vec<u8, A>, hart: u32) -> Result<(), AllocError>
    ensures ok { OnOk result (out.new.items ≡ out.old.items ++ thread_pair hart) }
    ensures kept { OnErr result (BeginsWith out.new.items out.old.items) }
{
    out.extend_from_slice(b"thread:")?;
    push_thread(out, u64::from(hart))?;
    out.push(b';')?;
    Ok(())
}

// Appends the name of a watchpoint and an address.
#[tactic(auto, unfolding(crate::specs::Stops::at_address))]
fn push_watch<A: Allocator>(
    out: &mut Vec<u8, A>,
    name: &str,
    address: u32,
) -> Result<(), AllocError>
    ensures ok { OnOk result (out.new.items ≡ out.old.items ++ at_address name.now address) }
    ensures kept { OnErr result (BeginsWith out.new.items out.old.items) }
{
    out.extend_from_slice(name.as_bytes())?;
    out.push(b':')?;
    push_number(out, u64::from(address))?;
    out.push(b';')?;
    Ok(())
}

// Appends a reason.
#[tactic(auto, unfolding(crate::specs::Stops::reason_text))]
fn push_reason<A: Allocator>(out: &mut Vec<u8, A>, reason: Option<Reason>) -> Result<(), AllocError>
    ensures ok { OnOk result (out.new.items ≡ out.old.items ++ reason_text reason) }
    ensures kept { OnErr result (BeginsWith out.new.items out.old.items) }
{
    match reason {
        None => Ok(()),
        Some(Reason::SoftwareBreakpoint) => out.extend_from_slice(b"swbreak:;"),
        Some(Reason::HardwareBreakpoint) => out.extend_from_slice(b"hwbreak:;"),
        Some(Reason::Write(address)) => push_watch(out, "watch", address),
        Some(Reason::Read(address)) => push_watch(out, "rwatch", address),
        Some(Reason::Access(address)) => push_watch(out, "awatch", address),
        Some(Reason::ListEnd) => out.extend_from_slice(b"replaylog:end;"),
        Some(Reason::ListBegin) => out.extend_from_slice(b"replaylog:begin;"),
    }
}

// Appends where a thread stands.
#[tactic(auto, unfolding(crate::specs::Stops::stop_place))]
fn push_place<A: Allocator>(out: &mut Vec<u8, A>, stop: &Stop) -> Result<(), AllocError>
    ensures ok { OnOk result (out.new.items ≡ out.old.items ++ stop_place stop.now) }
    ensures kept { OnErr result (BeginsWith out.new.items out.old.items) }
{
    push_register(out, "02", stop.sp)?;
    push_register(out, "08", stop.s0)?;
    push_register(out, "20", stop.pc)
}

/// Appends the text of a stop.
pub fn push_stop<A: Allocator>(out: &mut Vec<u8, A>, stop: &Stop) -> Result<(), AllocError>
    ensures ok { OnOk result (out.new.items ≡ out.old.items ++ stop_reply stop.now) }
    ensures kept { OnErr result (BeginsWith out.new.items out.old.items) }
{
    out.push(b'T')?;
    push_byte(out, number_of(stop.signal))?;
    push_place(out, stop)?;
    push_thread_pair(out, stop.hart)?;
    push_reason(out, stop.reason)
}
