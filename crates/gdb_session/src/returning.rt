//! A way back to the position that memory cannot refuse.
ghost use Rattle.std.specs.Prelude.{◌≡◌, ◌≤◌, IfOk, Some};
ghost use Rattle.debug_session.specs.Paged.{paged_world};
ghost use Rattle.debug_session.specs.Session.{length_of, session, world_at};

use debug_session::{Debugger, PagedMachine, Target, Wanted};
use machine::Choice;
use std::alloc::{AllocError, Allocator};

// A search that takes each choice.
#[derive(Clone, Copy)]
struct EachChoice;

impl<A: Allocator + Copy> Wanted<A> for EachChoice {
    type Reason = Choice;

    ghost reason = { λ s w c. Some c };

    fn step(
        &self,
        machine: &mut PagedMachine<A>,
        choice: Choice,
    ) -> Result<Option<Choice>, AllocError> {
        machine.step(choice)?;
        Ok(Some(choice))
    }
}

/// The position as the result of a search: moving to it cannot fail. Fails when out of memory.
pub fn home<A: Allocator + Copy>(
    alloc: A,
    debugger: &Debugger<A>,
) -> Result<Target<A, Choice>, AllocError>
    ensures here { IfOk result (λ t. t.position ≡ (session debugger.now).position) }
    ensures inside { IfOk result (λ t. t.position ≤ length_of (session debugger.now)) }
    ensures world { IfOk result (λ t.
        paged_world t.machine ≡ world_at (session debugger.now) t.position) }
{
    debugger.last_below(alloc, &EachChoice, debugger.position())
}
