//! Choices, done and looked at.
ghost use Rattle.std.specs.Prelude.{◌≡◌, ◌<◌, Some, OnOk, IfOk, length};
ghost use Rattle.hart_step.specs.Hart.{hart_of};
ghost use Rattle.machine.specs.World.{step};
ghost use Rattle.debug_session.specs.Paged.{paged_world};
ghost use Rattle.debug_session.specs.Stops.{has};
ghost use Rattle.gdb_moves.specs.Points.{marked};
ghost use Rattle.gdb_moves.specs.Sights.{next_pc, fault_of, stands_of, touches_in, seen_at};

use crate::hits::watch_hit;
use crate::points::Points;
use crate::seen::Seen;
use crate::stop::StopReason;
use crate::touching::word_shown;
use debug_session::{PagedMachine, runs, touched};
use hart_step::{Access, Cause, Hart, HartState};
use machine::Choice;
use std::alloc::{AllocError, Allocator};
use std::collections::BTreeSet;

// The address of a hart's next instruction, if it runs.
fn next_of(hart: &Hart) -> Option<u32>
    ensures { result ≡ next_pc (Some (hart_of hart.now)) }
{
    match hart.state {
        HartState::Running => Some(hart.pc),
        HartState::Exited(_) | HartState::Faulted(_) => None,
    }
}

// The fault of a hart, if it ran before.
fn fault_of(ran: bool, hart: &Hart) -> Option<Cause>
    ensures { result ≡ fault_of ran (Some (hart_of hart.now)) }
{
    match hart.state {
        HartState::Faulted(cause) => { if ran { Some(cause) } else { None } }
        HartState::Running | HartState::Exited(_) => None,
    }
}

// Whether an address is in a set.
fn has<A: Allocator + Copy>(addresses: &BTreeSet<u32, A>, address: u32) -> bool
    ensures { result ≡ has addresses.now.keys address }
{
    addresses.contains(&address)
}

impl<A: Allocator + Copy> Points<A> {
    // The breakpoint at which a hart stands, if it runs.
    fn stands(&self, hart: &Hart) -> Option<StopReason>
        ensures { result ≡ stands_of (marked self.now) (Some (hart_of hart.now)) }
    {
        let pc = next_of(hart)?;
        if has(&self.software, pc) {
            return Some(StopReason::Software);
        }
        if has(&self.hardware, pc) {
            return Some(StopReason::Hardware);
        }
        None
    }

    // The watch that a step hits, given its hart after it; none if the step faults.
    fn touches(
        &self,
        hart: &Hart,
        access: Option<Access>,
        before: [u8; 4],
        after: [u8; 4],
    ) -> Option<StopReason>
        ensures { result ≡ touches_in (marked self.now).watches (Some (hart_of hart.now)) access
            before after }
    {
        if runs(hart) {
            watch_hit(&self.watches, access, before, after)
        } else {
            None
        }
    }

    /// Does a choice's step; returns what is seen of it. Fails when out of memory.
    pub(crate) fn see(
        &self,
        machine: &mut PagedMachine<A>,
        choice: Choice,
    ) -> Result<Seen, AllocError>
        requires { choice.hart < length (paged_world machine.old).harts }
        ensures world { OnOk result (paged_world machine.new
            ≡ step (paged_world machine.old) choice) }
        ensures seen { IfOk result (λ seen. seen
            ≡ seen_at (marked self.now) (paged_world machine.old) choice) }
        ensures harts { length (paged_world machine.new).harts
            ≡ length (paged_world machine.old).harts }
    {
        let hart = machine.hart(choice.hart as usize);
        let ran = runs(hart);
        let stands = self.stands(hart);
        let access = touched(machine, choice);
        let before = word_shown(machine.store(), access);
        machine.step(choice)?;
        let after = word_shown(machine.store(), access);
        let hart = machine.hart(choice.hart as usize);
        let touches = self.touches(hart, access, before, after);
        Ok(Seen {
            ran,
            stands,
            touches,
            fault: fault_of(ran, hart),
            next: next_of(hart),
        })
    }
}
