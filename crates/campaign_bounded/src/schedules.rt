//! The schedules, one after another.

ghost use Rattle.std.specs.Prelude.{◌≡◌, ◌+◌, ◌-◌, ◌<◌, ◌≤◌, ◌++◌, ◌∷◌, drop, IfOk, OnOk};
ghost use Rattle.std.specs.List.{filter, flat_map, range_with_len};
ghost use Rattle.machine.specs.Machine.{world};
ghost use Rattle.campaign_bounded.specs.Bounded.{itself, may_take_over, schedules};
ghost use Rattle.campaign_bounded.specs.Walk.{led_from, led_of, spot_of, through};
ghost use Rattle.campaign_bounded.specs.Spots.{after_step, takes_over, Branches, GivesNext};

use crate::node::Node;
use crate::schedule::Schedule;
use machine::Machine;
use mem_store::FromImage;
use std::alloc::{AllocError, Allocator};

/// A walk through all schedules of a program with a bounded number of preemptions, in order.
#[derive(Drop)]
pub struct Schedules<S, A: Allocator> {
    // The places where schedules are still to come, those of the last one first.
    pub(crate) nodes: Vec<Node<S, A>, A>,
}

impl<S: FromImage<A>, A: Allocator + Copy> Schedules<S, A> {
    ghost use Rattle.campaign_bounded.specs.Walk.{schedules_left};

    /// All schedules from a machine on, of so many harts, with at most `choices` choices and at
    /// most `preemptions` preemptions. The only error is out of memory.
    pub fn new(
        alloc: A,
        start: Machine<S, A>,
        harts: u32,
        choices: u64,
        preemptions: u32,
    ) -> Result<Self, AllocError>
        ensures { IfOk result (λ walk. schedules_left S.memory walk
            ≡ led_from (world S.memory start)
            (schedules harts choices preemptions (world S.memory start))) }
    {
        let mut nodes = Vec::new(alloc);
        nodes.push(Node {
            path: Vec::new(alloc),
            machine: start,
            last: None,
            harts,
            preemptions,
            choices,
        })?;
        Ok(Schedules { nodes })
    }

    /// The next schedule; `None` once all were given. The only error is out of memory.
    #[tactic(auto, using(crate::proofs::WalkLemmas::next_given, crate::proofs::WalkLemmas::none_given))]
    pub fn next(&mut self, alloc: A) -> Result<Option<Schedule<S, A>>, AllocError>
        ensures { IfOk result (λ next. GivesNext S.memory next (schedules_left S.memory self.old)
            (schedules_left S.memory self.new)) }
    {
        match self.nodes.pop() {
            None => Ok(None),
            Some(node) => {
                let schedule = self.finish(alloc, node)?;
                Ok(Some(schedule))
            }
        }
    }

    /// Leaves out the next `count` schedules, or all that are left. The only error is out of
    /// memory.
    #[tactic(auto, using(crate::proofs::SkipLemmas::skipped_one, crate::proofs::SkipLemmas::skipped_all))]
    pub fn skip(&mut self, alloc: A, count: u64) -> Result<(), AllocError>
        ensures { OnOk result (schedules_left S.memory self.new
            ≡ drop count (schedules_left S.memory self.old)) }
    {
        'skipped: for _done in 0..count {
            let Some(_schedule) = self.next(alloc)? else {
                return Ok(());
            };
        }
        Ok(())
    }

    // The first schedule through a node; the others are kept.
    #[tactic(auto, using(crate::proofs::WalkLemmas::goes_on_after, crate::proofs::WalkLemmas::given_early, crate::proofs::WalkLemmas::given_last))]
    fn finish(&mut self, alloc: A, node: Node<S, A>) -> Result<Schedule<S, A>, AllocError>
        ensures { IfOk result (λ schedule.
            led_of S.memory schedule ∷ schedules_left S.memory self.new
            ≡ through (spot_of S.memory node) ++ schedules_left S.memory self.old) }
    {
        let mut node = node;
        'choices: while node.choices > 0 {
            if !self.branch(alloc, &mut node)? {
                return Ok(Schedule {
                    choices: node.path,
                    machine: node.machine,
                });
            }
        }
        Ok(Schedule {
            choices: node.path,
            machine: node.machine,
        })
    }

    // Takes the first step that can come next, keeps the nodes behind the others, and returns
    // whether there is one.
    #[tactic(auto, using(crate::proofs::WalkLemmas::branched_first, crate::proofs::WalkLemmas::branched_itself, crate::proofs::WalkLemmas::taken_none, crate::proofs::WalkLemmas::first_runs, crate::proofs::WalkLemmas::itself_runs))]
    fn branch(&mut self, alloc: A, node: &mut Node<S, A>) -> Result<bool, AllocError>
        requires { 0 < node.old.choices }
        ensures { IfOk result (λ more. Branches more (spot_of S.memory node.old)
            (spot_of S.memory node.new) (schedules_left S.memory self.old)
            (schedules_left S.memory self.new)) }
    {
        match node.first_other() {
            Some(first) => {
                self.keep_itself(alloc, node)?;
                self.keep_others(alloc, node, first + 1)?;
                node.take(first)?;
                Ok(true)
            }
            None => match node.itself() {
                Some(last) => {
                    node.take(last)?;
                    Ok(true)
                }
                None => Ok(false),
            },
        }
    }

    // Keeps the node after a step of the hart that took the last one, if it can go on.
    #[tactic(auto, using(crate::proofs::WalkLemmas::itself_runs, crate::proofs::WalkLemmas::kept_none))]
    fn keep_itself(&mut self, alloc: A, node: &Node<S, A>) -> Result<(), AllocError>
        requires { 0 < node.now.choices }
        ensures { OnOk result (schedules_left S.memory self.new
            ≡ flat_map (λ hart. through (after_step (spot_of S.memory node.now) hart))
            (itself (world S.memory node.now.machine) node.now.last)
            ++ schedules_left S.memory self.old) }
    {
        if let Some(last) = node.itself() {
            let after = node.after(alloc, last)?;
            self.nodes.push(after)?;
        }
        Ok(())
    }

    // Keeps the node after a step of another hart, if it may take over.
    #[tactic(auto, using(crate::proofs::WalkLemmas::taker_runs, crate::proofs::WalkLemmas::kept_none, crate::proofs::WalkLemmas::takes_none))]
    fn keep_other(&mut self, alloc: A, node: &Node<S, A>, hart: u32) -> Result<(), AllocError>
        requires { 0 < node.now.choices }
        ensures { OnOk result (schedules_left S.memory self.new
            ≡ flat_map (λ g. through (after_step (spot_of S.memory node.now) g))
            (takes_over (spot_of S.memory node.now) hart) ++ schedules_left S.memory self.old) }
    {
        if node.may_take_over(hart) {
            let after = node.after(alloc, hart)?;
            self.nodes.push(after)?;
        }
        Ok(())
    }

    // Keeps the nodes after steps of the other harts from one on, the last hart's first.
    #[tactic(auto, using(crate::proofs::WalkLemmas::kept_next, crate::proofs::WalkLemmas::kept_all))]
    fn keep_others(&mut self, alloc: A, node: &Node<S, A>, from: u32) -> Result<(), AllocError>
        requires left { 0 < node.now.choices }
        requires there { from ≤ node.now.harts }
        ensures { OnOk result (schedules_left S.memory self.new
            ≡ flat_map (λ hart. through (after_step (spot_of S.memory node.now) hart))
            (filter (may_take_over node.now.preemptions (world S.memory node.now.machine)
            node.now.last)
            (range_with_len from (node.now.harts - from))) ++ schedules_left S.memory self.old) }
    {
        'harts: for back in 0..node.harts - from {
            self.keep_other(alloc, node, node.harts - 1 - back)?;
        }
        Ok(())
    }
}
