//! The data access of a step.
ghost use Rattle.std.specs.Prelude.{◌≡◌, ◌<◌, slice_get, length};
ghost use Rattle.mem_store.specs.Access.{fetched};
ghost use Rattle.hart_step.specs.Hart.{hart_of, registers_of};
ghost use Rattle.hart_step.specs.Locality.{access_at};
ghost use Rattle.debug_session.specs.Accessed.{accessed};
ghost use Rattle.debug_session.specs.Paged.{paged_world};

use crate::paged_machine::PagedMachine;
use hart_step::{Access, Hart, HartState, access_by};
use isa_decode::decode;
use mem_store::Store;
use std::alloc::Allocator;

// The data access of a running hart's next step, if it has one.
fn hart_access<S: Store>(hart: &Hart, store: &S) -> Option<Access>
    ensures { result ≡ access_at (fetched (S.memory store.now) hart.now.pc)
        (registers_of hart.now.registers) }
{
    let word = store.fetch(hart.pc)?;
    let instr = decode(word)?;
    access_by(hart, instr)
}

/// The data access of a hart's next step, if it has one; a step that faults has the one that it
/// tries.
pub fn accessed<A: Allocator + Copy>(machine: &PagedMachine<A>, number: u32) -> Option<Access>
    requires { number < length (paged_world machine.now).harts }
    ensures { result ≡ accessed (paged_world machine.now)
        (slice_get (paged_world machine.now).harts number) }
{
    let hart = machine.hart(number as usize);
    match hart.state {
        HartState::Running => hart_access(hart, machine.store()),
        HartState::Exited(_) | HartState::Faulted(_) => None,
    }
}
