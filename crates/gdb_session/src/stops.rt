//! What is told of the stops of moves.
ghost use Rattle.std.specs.Prelude.{◌≡◌, slice_get};
ghost use Rattle.hart_step.specs.Hart.{hart_of};
ghost use Rattle.gdb_session.specs.Harts.{stopped_hart};
ghost use Rattle.gdb_session.specs.Moves.{end_told, hart_at_end, reason_told, signal_told, stop_in, stop_told};
ghost use Rattle.gdb_session.specs.Talk.{talk_of, world_seen};

use crate::harts::stopped_hart;
use crate::movement::Move;
use crate::talk::Talk;
use gdb_moves::{StopReason, ThreadStop};
use gdb_replies::{Reason, Signal, Stop, signal_of};
use std::alloc::Allocator;

// The signal of a stop.
#[tactic(auto, unfolding(crate::specs::Moves::signal_told))]
fn signal_told(reason: StopReason) -> Signal
    ensures { result ≡ signal_told reason }
{
    match reason {
        StopReason::Fault(cause) => signal_of(cause),
        _ => Signal::Trap,
    }
}

// The reason that GDB is told, if it is told any.
#[tactic(auto, unfolding(crate::specs::Moves::reason_told))]
fn reason_told(knows_software: bool, reason: StopReason) -> Option<Reason>
    ensures { result ≡ reason_told knows_software reason }
{
    match reason {
        StopReason::Software => {
            if knows_software {
                Some(Reason::SoftwareBreakpoint)
            } else {
                None
            }
        }
        StopReason::Hardware => Some(Reason::HardwareBreakpoint),
        StopReason::Change { address } => Some(Reason::Write(address)),
        StopReason::Read { address } => Some(Reason::Read(address)),
        StopReason::Access { address } => Some(Reason::Access(address)),
        StopReason::Fault(_) | StopReason::Ready | StopReason::Done => None,
    }
}

// What is told where a move ends without a stop.
#[tactic(auto, unfolding(crate::specs::Moves::end_told))]
fn end_told(movement: Move) -> Reason
    ensures { result ≡ end_told movement }
{
    match movement {
        Move::Ahead(_) | Move::Step { .. } | Move::StepAny { .. } | Move::StepAlone { .. } => {
            Reason::ListEnd
        }
        Move::Back(_) | Move::StepBack { .. } => Reason::ListBegin,
    }
}

// The hart that is told there.
#[tactic(auto, unfolding(crate::specs::Moves::hart_at_end))]
fn hart_at_end(last: &Option<Stop>, movement: Move) -> u32
    ensures { result ≡ hart_at_end last.now movement }
{
    match movement {
        Move::Ahead(_) | Move::Back(_) | Move::StepAny { .. } => stopped_hart(last),
        Move::Step { hart, .. } | Move::StepAlone { hart, .. } => hart,
        Move::StepBack { hart, .. } => hart,
    }
}

impl<A: Allocator + Copy> Talk<A> {
    // A stop of a hart at the position.
    fn stop_in(&self, signal: Signal, reason: Option<Reason>, number: u32) -> Stop
        ensures { result ≡ stop_in (world_seen (talk_of self.now)) signal reason number }
    {
        let machine = self.debugger.machine();
        let mut stop = Stop {
            signal,
            hart: number,
            sp: 0,
            s0: 0,
            pc: 0,
            reason,
        };
        if (number as usize) < machine.harts() {
            let hart = machine.hart(number as usize);
            stop.sp = hart.registers[2];
            stop.s0 = hart.registers[8];
            stop.pc = hart.pc;
        }
        stop
    }

    /// What is told of a move that has ended at the position.
    pub(crate) fn stop_told(&self, movement: Move, stop: Option<ThreadStop>) -> Stop
        ensures { result ≡ stop_told (talk_of self.now) movement (world_seen (talk_of self.now))
            stop }
    {
        match stop {
            Some(stop) => self.stop_in(
                signal_told(stop.reason),
                reason_told(self.software_stops, stop.reason),
                stop.hart,
            ),
            None => self.stop_in(
                Signal::Trap,
                Some(end_told(movement)),
                hart_at_end(&self.stop, movement),
            ),
        }
    }
}
