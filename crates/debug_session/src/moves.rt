//! Moves to a position.
ghost use Rattle.std.specs.Prelude.{◌≡◌, ◌<◌, ◌≤◌, ◌+◌, ◌-◌, length, vec_len, Err, OnOk, OnErr, IfOk, IfErr};
ghost use Rattle.std.specs.Borrow.{sem};
ghost use Rattle.machine.specs.State.{reached};
ghost use Rattle.debug_session.specs.Paged.{paged_world};
ghost use Rattle.debug_session.specs.Session.{session, moved, world_at, length_of, steps_to};
ghost use Rattle.debug_session.specs.Lending.{EndsMoved};
ghost use Rattle.debug_session.specs.declared.fault.MoveFault.TheVariants.{PastEnd};

use crate::debugger::Debugger;
use crate::fault::MoveFault;
use crate::paged_machine::PagedMachine;
use crate::stepping::walk;
use crate::track::{BLOCK, Track};
use machine::Choice;
use std::alloc::{AllocError, Allocator};

impl<A: Allocator + Copy> Track<A> {
    /// The machine after k choices, and the number of steps from the checkpoint before.
    pub fn machine_at(&self, alloc: A, k: usize) -> Result<(PagedMachine<A>, u64), AllocError>
        requires { k ≤ vec_len self.now.choices }
        ensures world { IfOk result (λ r. paged_world r.0
            ≡ reached self.now.image self.now.inputs self.now.choices.items k) }
        ensures cost { IfOk result (λ r. r.1 ≡ steps_to k) }
    {
        let mut machine = self.checkpoint(k / BLOCK).copy(alloc)?;
        let mut cost = 0;
        let (_, rest) = self.choices.split_at(k / BLOCK * BLOCK);
        let (part, _) = rest.split_at(k % BLOCK);
        walk(&mut machine, &mut cost, part)?;
        Ok((machine, cost))
    }
}

impl<A: Allocator + Copy> Debugger<A> {
    /// The number of choices done at the position: 0 to the number of choices.
    pub fn position(&self) -> usize
        ensures value { result ≡ (session self.now).position }
        ensures inside { result ≤ length_of (session self.now) }
    {
        self.position
    }

    /// The choices of the run; a position is the number of them that are done.
    pub fn choices(&self) -> &[Choice]
        ensures { result.now ≡ (session self.now).choices }
    {
        &self.track.choices
    }

    /// The machine at the position.
    pub fn machine(&self) -> &PagedMachine<A>
        ensures { paged_world result.now ≡ world_at (session self.now) (session self.now).position }
    {
        &self.machine
    }

    /// The number of harts' steps that the last move executed.
    pub fn cost(&self) -> u64
        ensures { result ≡ self.now.cost }
    {
        self.cost
    }
}

impl<A: Allocator + Copy> Debugger<A> {
    /// Moves to the position after k choices. On a fault nothing has changed.
    pub fn goto(&mut self, alloc: A, k: usize) -> Result<(), MoveFault>
        ensures ok { OnOk result ((k ≤ length_of (session self.old))
            × (session self.new ≡ moved (session self.old) k)) }
        ensures cost { OnOk result (self.new.cost ≡ steps_to k) }
        ensures few { OnOk result (self.new.cost ≤ 255) }
        ensures err { OnErr result ((session self.new ≡ session self.old)
            × (self.new.cost ≡ self.old.cost)) }
        ensures past { IfErr result (λ e. e ≡ PastEnd → length_of (session self.old) < k) }
        ensures far { length_of (session self.old) < k → result ≡ Err PastEnd }
    {
        if k > self.track.choices.len() {
            return Err(MoveFault::PastEnd);
        }
        let Ok((machine, cost)) = self.track.machine_at(alloc, k) else {
            return Err(MoveFault::Memory);
        };
        self.machine = machine;
        self.position = k;
        self.cost = cost;
        Ok(())
    }

    /// Moves to the position after k choices, and returns the machine there.
    pub fn at(&mut self, alloc: A, k: usize) -> Result<&PagedMachine<A>, MoveFault>
        ensures world { IfOk result (λ m. paged_world m.now ≡ world_at (session self.old) k) }
        ensures inside { OnOk result (k ≤ length_of (session self.old)) }
        ensures past { IfErr result (λ e. e ≡ PastEnd → length_of (session self.old) < k) }
        ensures far { length_of (session self.old) < k → result ≡ Err PastEnd }
        // The debugger once the machine's borrow ends.
        ensures* after { sem 𝓛 (EndsMoved A.row A.Allocator self.entry k result) }
    {
        self.goto(alloc, k)?;
        Ok(&self.machine)
    }

    /// Moves n choices forwards.
    pub fn forward(&mut self, alloc: A, n: usize) -> Result<(), MoveFault>
        ensures ok { OnOk result (
            ((session self.old).position + n ≤ length_of (session self.old))
            × (session self.new ≡ moved (session self.old) ((session self.old).position + n))) }
        ensures cost { OnOk result (self.new.cost ≡ steps_to ((session self.old).position + n)) }
        ensures few { OnOk result (self.new.cost ≤ 255) }
        ensures err { OnErr result ((session self.new ≡ session self.old)
            × (self.new.cost ≡ self.old.cost)) }
        ensures past { IfErr result (λ e. e ≡ PastEnd
            → length_of (session self.old) < (session self.old).position + n) }
        ensures far { length_of (session self.old) < (session self.old).position + n
            → result ≡ Err PastEnd }
    {
        if n > self.track.choices.len() - self.position {
            return Err(MoveFault::PastEnd);
        }
        self.goto(alloc, self.position + n)
    }

    /// Moves n choices backwards.
    pub fn back(&mut self, alloc: A, n: usize) -> Result<(), MoveFault>
        ensures ok { OnOk result ((n ≤ (session self.old).position)
            × (session self.new ≡ moved (session self.old) ((session self.old).position - n))) }
        ensures cost { OnOk result (self.new.cost ≡ steps_to ((session self.old).position - n)) }
        ensures few { OnOk result (self.new.cost ≤ 255) }
        ensures err { OnErr result ((session self.new ≡ session self.old)
            × (self.new.cost ≡ self.old.cost)) }
        ensures past { IfErr result (λ e. e ≡ PastEnd → (session self.old).position < n) }
        ensures far { (session self.old).position < n → result ≡ Err PastEnd }
    {
        if n > self.position {
            return Err(MoveFault::PastEnd);
        }
        self.goto(alloc, self.position - n)
    }
}
