//! A book takes segments in.
ghost use Rattle.std.specs.Prelude.{◌≡◌, ◌<◌, Some, length, slice_get, OnOk, OnErr, IfErr, MatchBool};
ghost use Rattle.mem_store.specs.Image.{segments_memory};
ghost use Rattle.hart_step.specs.Hart.{hart_of};
ghost use Rattle.hart_local.specs.CodeMemory.{code_in};
ghost use Rattle.machine.specs.World.{run};
ghost use Rattle.machine.specs.State.{state};
ghost use Rattle.history.specs.History.{entry, entry_choices};
ghost use Rattle.thread_book.specs.Present.{IsPresented, IsCurrent, RefusesToTake};

use crate::book::Book;
use crate::fault::PresentFault;
use crate::sameness::{is_same_code, is_same_hart};
use crate::segment::Segment;
use machine::{Choice, Machine};
use mem_flat::FlatStore;
use std::alloc::Allocator;

impl<A: Allocator> Book<A> {
    // Whether the book's hart and code are those that a segment began with.
    fn is_current(&self, segment: &Segment<A>) -> bool
        requires { segment.now.hart < length self.now.inputs }
        ensures { MatchBool result (IsCurrent self.now segment.now)
            (IsCurrent self.now segment.now → ⊥) }
    {
        let number = segment.hart() as usize;
        is_same_hart(segment.slot(), self.hart(number)) && is_same_code(&segment.code, &self.code)
    }

    /// Takes a segment in: its local steps, and then one step of its hart, become one entry of the
    /// history, all at this moment. The segment is then empty and current.
    pub fn present(&mut self, segment: &mut Segment<A>) -> Result<(), PresentFault>
        ensures ok { OnOk result (IsPresented self.old segment.old self.new segment.new) }
        ensures fault { IfErr result (λ fault. RefusesToTake self.old segment.old fault) }
        ensures unchanged { OnErr result ((self.new ≡ self.old) × (segment.new ≡ segment.old)) }
    {
        let number = segment.hart() as usize;
        if number >= self.inputs.harts() as usize {
            return Err(PresentFault::NoHart);
        }
        if !self.is_current(segment) {
            return Err(PresentFault::Stale);
        }
        // The only call that can fail comes before any change.
        let Ok(()) = self.history.push(segment.entry()) else {
            return Err(PresentFault::Memory);
        };
        enter(&mut self.machine, segment);
        segment.restart(*self.hart(number));
        Ok(())
    }
}

// Applies the choices of a segment's entry: replaces the hart by the one after its local steps, and
// does one step of it.
fn enter<A: Allocator>(machine: &mut Machine<FlatStore<A>, A>, segment: &Segment<A>)
    requires there { slice_get (state machine.old).harts segment.now.hart
        ≡ Some (hart_of segment.now.slot) }
    requires code { segments_memory segment.now.code ≡ code_in (state machine.old).memory }
    ensures { state machine.new ≡ run (state machine.old)
        (entry_choices (entry segment.now.hart segment.now.local segment.now.refuse)) }
{
    let choice = Choice {
        hart: segment.hart,
        refuse: segment.refuse,
    };
    machine.put_hart(choice.hart as usize, segment.reached);
    let Ok(()) = machine.step(choice) else {
        // A flat store never allocates on a store.
        unreachable!();
    };
}
