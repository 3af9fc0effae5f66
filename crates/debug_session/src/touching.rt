//! Accesses that take place.
ghost use Rattle.std.specs.Prelude.{◌≡◌, ◌<◌, Some, length, slice_get};
ghost use Rattle.hart_step.specs.Hart.{hart_of};
ghost use Rattle.debug_session.specs.Paged.{paged_world};
ghost use Rattle.debug_session.specs.Touched.{reads, if_reads, sc_stores, takes_place, if_place, touched, hart_runs, if_runs};

use crate::access::accessed;
use crate::paged_machine::PagedMachine;
use hart_step::{Access, AccessKind, Hart, HartState};
use machine::Choice;
use std::alloc::Allocator;

/// Whether an access reads.
pub fn reads(kind: AccessKind) -> bool
    ensures { result ≡ reads kind }
{
    match kind {
        AccessKind::Load | AccessKind::LoadReserved | AccessKind::Amo => true,
        AccessKind::Store | AccessKind::StoreConditional => false,
    }
}

/// An access if it reads.
pub(crate) fn if_reads(access: Option<Access>) -> Option<Access>
    ensures { result ≡ if_reads access }
{
    let access = access?;
    if reads(access.kind) {
        Some(access)
    } else {
        None
    }
}

// Whether a store-conditional of a choice to an address stores, if it does not fault.
fn succeeds<A: Allocator + Copy>(machine: &PagedMachine<A>, choice: Choice, address: u32) -> bool
    requires { choice.hart < length (paged_world machine.now).harts }
    ensures { result ≡ sc_stores (paged_world machine.now) choice address }
{
    if choice.refuse {
        return false;
    }
    machine.reserve().holds(choice.hart as usize, address)
}

// Whether an access of a choice takes place, if it does not fault.
fn takes_place<A: Allocator + Copy>(
    machine: &PagedMachine<A>,
    choice: Choice,
    access: Access,
) -> bool
    requires { choice.hart < length (paged_world machine.now).harts }
    ensures { result ≡ takes_place access.kind (paged_world machine.now) choice access.address }
{
    match access.kind {
        AccessKind::StoreConditional => succeeds(machine, choice, access.address),
        AccessKind::Load | AccessKind::Store | AccessKind::LoadReserved | AccessKind::Amo => true,
    }
}

/// The access of a choice, if it takes place unless it faults.
pub(crate) fn if_place<A: Allocator + Copy>(
    machine: &PagedMachine<A>,
    choice: Choice,
    access: Option<Access>,
) -> Option<Access>
    requires { choice.hart < length (paged_world machine.now).harts }
    ensures { result ≡ if_place (paged_world machine.now) choice access }
{
    let access = access?;
    if takes_place(machine, choice, access) {
        Some(access)
    } else {
        None
    }
}

/// The access of a choice's step, if it has one and does not fault; none of a store-conditional
/// that stores nothing.
pub fn touched<A: Allocator + Copy>(machine: &PagedMachine<A>, choice: Choice) -> Option<Access>
    requires { choice.hart < length (paged_world machine.now).harts }
    ensures { result ≡ touched (paged_world machine.now) choice }
{
    if_place(machine, choice, accessed(machine, choice.hart))
}

/// Whether a hart runs.
pub fn runs(hart: &Hart) -> bool
    ensures { result ≡ hart_runs (Some (hart_of hart.now)) }
{
    match hart.state {
        HartState::Running => true,
        HartState::Exited(_) | HartState::Faulted(_) => false,
    }
}

/// The access of a hart's step, if the hart runs after it, so that the step has not faulted.
pub(crate) fn if_runs<A: Allocator + Copy>(
    machine: &PagedMachine<A>,
    hart: u32,
    access: Option<Access>,
) -> Option<Access>
    requires { hart < length (paged_world machine.now).harts }
    ensures { result ≡ if_runs (slice_get (paged_world machine.now).harts hart) access }
{
    if runs(machine.hart(hart as usize)) {
        access
    } else {
        None
    }
}
