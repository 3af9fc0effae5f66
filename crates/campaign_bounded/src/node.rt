//! A place in the tree of schedules.

ghost use Rattle.std.specs.Prelude.{◌≡◌, ◌+◌, ◌-◌, ◌<◌, ◌≤◌, true, Some, IfOk, IfNone, IfSome, OnOk, [], ◌∷◌};
ghost use Rattle.std.specs.List.{filter, range_with_len};
ghost use Rattle.machine.specs.Machine.{world};
ghost use Rattle.machine.specs.Running.{runs};
ghost use Rattle.campaign_bounded.specs.Bounded.{can_go_on, is_last, itself, may_take_over, others, preemption};
ghost use Rattle.campaign_bounded.specs.Walk.{spot_of};
ghost use Rattle.campaign_bounded.specs.Spots.{after_step, option_list};

use machine::{Choice, Machine, runs};
use mem_store::{FromImage, Store};
use std::alloc::{AllocError, Allocator};

/// A place in the tree of schedules: all that begin with these choices are still to come.
#[derive(Drop)]
pub(crate) struct Node<S, A: Allocator> {
    /// The choices so far.
    pub(crate) path: Vec<Choice, A>,
    /// The machine after them.
    pub(crate) machine: Machine<S, A>,
    /// The hart of the last one.
    pub(crate) last: Option<u32>,
    /// Number of harts.
    pub(crate) harts: u32,
    /// Number of preemptions that are left.
    pub(crate) preemptions: u32,
    /// Number of choices that are left.
    pub(crate) choices: u64,
}

impl<S: Store, A: Allocator> Node<S, A> {
    // Whether the hart that took the last step can go on.
    fn can_go_on(&self) -> bool
        ensures { result ≡ can_go_on (world S.memory self.now.machine) self.now.last }
    {
        match self.last {
            Some(last) => runs(self.machine.ends(), last),
            None => false,
        }
    }

    // Whether a hart took the last step.
    fn is_last(&self, hart: u32) -> bool
        ensures { result ≡ is_last self.now.last hart }
    {
        match self.last {
            Some(last) => last == hart,
            None => false,
        }
    }

    // 1 if a step of this hart is a preemption.
    fn preemption(&self, hart: u32) -> u32
        ensures { result ≡ preemption (world S.memory self.now.machine) self.now.last hart }
    {
        if self.can_go_on() && !self.is_last(hart) {
            1
        } else {
            0
        }
    }

    /// Whether another hart, this one, may take over.
    pub(crate) fn may_take_over(&self, hart: u32) -> bool
        ensures { result ≡ may_take_over self.now.preemptions (world S.memory self.now.machine)
            self.now.last hart }
    {
        runs(self.machine.ends(), hart)
            && !self.is_last(hart)
            && (self.preemptions > 0 || !self.can_go_on())
    }

    /// The first other hart that may take over.
    #[tactic(auto, using(crate::proofs::WalkLemmas::dropped, crate::proofs::WalkLemmas::found, crate::proofs::WalkLemmas::all_dropped))]
    pub(crate) fn first_other(&self) -> Option<u32>
        ensures none { IfNone result (others self.now.harts self.now.preemptions
            (world S.memory self.now.machine) self.now.last ≡ []) }
        ensures some { IfSome result (λ hart. (hart < self.now.harts)
            × (others self.now.harts self.now.preemptions (world S.memory self.now.machine)
            self.now.last ≡ hart ∷ filter (may_take_over self.now.preemptions
            (world S.memory self.now.machine) self.now.last)
            (range_with_len (hart + 1) (self.now.harts - (hart + 1))))) }
    {
        'harts: for hart in 0..self.harts {
            if self.may_take_over(hart) {
                return Some(hart);
            }
        }
        None
    }

    /// The hart that took the last step, if it can go on.
    pub(crate) fn itself(&self) -> Option<u32>
        ensures { option_list result ≡ itself (world S.memory self.now.machine) self.now.last }
    {
        if self.can_go_on() { self.last } else { None }
    }

    /// Takes a step of a hart. The only error is out of memory.
    pub(crate) fn take(&mut self, hart: u32) -> Result<(), AllocError>
        requires left { 0 < self.old.choices }
        requires runs { runs (world S.memory self.old.machine).harts hart ≡ true }
        requires few { preemption (world S.memory self.old.machine) self.old.last hart
            ≤ self.old.preemptions }
        ensures { OnOk result (spot_of S.memory self.new
            ≡ after_step (spot_of S.memory self.old) hart) }
    {
        let choice = Choice {
            hart,
            refuse: false,
        };
        let preemption = self.preemption(hart);
        self.machine.step(choice)?;
        self.path.push(choice)?;
        self.last = Some(hart);
        self.preemptions -= preemption;
        self.choices -= 1;
        Ok(())
    }
}

impl<S: FromImage<A>, A: Allocator + Copy> Node<S, A> {
    // A copy.
    fn copy(&self, alloc: A) -> Result<Self, AllocError>
        ensures { IfOk result (λ node. spot_of S.memory node ≡ spot_of S.memory self.now) }
    {
        Ok(Node {
            path: Vec::from_slice(alloc, &self.path)?,
            machine: self.machine.copy(alloc)?,
            last: self.last,
            harts: self.harts,
            preemptions: self.preemptions,
            choices: self.choices,
        })
    }

    /// The node after a step of a hart. The only error is out of memory.
    pub(crate) fn after(&self, alloc: A, hart: u32) -> Result<Self, AllocError>
        requires left { 0 < self.now.choices }
        requires runs { runs (world S.memory self.now.machine).harts hart ≡ true }
        requires few { preemption (world S.memory self.now.machine) self.now.last hart
            ≤ self.now.preemptions }
        ensures { IfOk result (λ node. spot_of S.memory node
            ≡ after_step (spot_of S.memory self.now) hart) }
    {
        let mut node = self.copy(alloc)?;
        node.take(hart)?;
        Ok(node)
    }
}
