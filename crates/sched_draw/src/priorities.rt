//! Schedules by priorities, drawn one choice at a time.

ghost use Rattle.std.specs.Prelude.{◌≡◌, ◌-◌, ◌<◌, ◌≤◌, ℕ, true, false, IfOk, length, map};
ghost use Rattle.hart_step.specs.Hart.{hart_of};
ghost use Rattle.sched_draw.specs.Priorities.{first_running, with_priority_hart, with_harts, with_point, with_points};
ghost use Rattle.sched_draw.specs.Priorities.{priority_drawing, fallen, order_after, next_priority_choice, after_priority_choice};
ghost use Rattle.std.specs.List.{All};
ghost use Rattle.rand_pcg.specs.Pcg.{pcg32};
ghost use Rattle.hart_reservations.specs.Limit.{most_harts};
ghost use Rattle.machine.specs.Machine.{world};
ghost use Rattle.machine.specs.Running.{runs};
ghost use Rattle.machine.specs.World.{World};
ghost use Rattle.sched_run.specs.Chosen.{harts_of};
ghost use Rattle.sched_draw.specs.Partway.{LeadsOn};
ghost use Rattle.sched_draw.specs.Refusing.{is_refused};
ghost use Rattle.sched_draw.specs.Priorities.{is_point, priority_choices_drawn, priority_choices, waiting_fallen, after_watched_choice};
ghost use Rattle.sched_draw.specs.Drawn.{drawing, drawing_watched};
ghost use Rattle.sched_draw.specs.NoSteps.{no_priorities};

use crate::chooser::Chooser;
use crate::even::seeded_generator;
use crate::order::Depth;
use crate::refusals::{OneIn16, Refusals, Rule};
use crate::spinning::{Watch, waits};
use hart_step::Hart;
use machine::{Choice, Machine, runs};
use mem_store::Store;
use rand_core::utils::NextWord;
use rand_pcg::Lcg64Xsh32;
use sched_run::Chosen;
use std::alloc::{AllocError, Allocator};
use std::ops::Range;

/// The state of drawing choices by priorities from a seed.
#[derive(Drop)]
pub(crate) struct Priorities<A: Allocator> {
    // The harts, highest priority first.
    order: Vec<u32, A>,
    // The steps at which the chosen hart falls to the lowest priority.
    points: Vec<u64, A>,
    generator: Lcg64Xsh32,
}

// The first hart of an order that runs; hart 0 if none does.
fn first_running(order: &[u32], harts: &[Hart]) -> u32
    ensures { result ≡ first_running (map hart_of harts.now) order.now }
{
    'order: for hart in order {
        if runs(harts, *hart) {
            return *hart;
        }
    }
    0
}

// Whether a hart doesn't wait, and runs exactly if it did.
#[inline]
fn goes_on(does_wait: bool, harts: &[Hart], hart: u32, goes: bool) -> bool
    ensures awake { result ≡ true → does_wait ≡ false }
    ensures same { result ≡ true → runs (map hart_of harts.now) hart ≡ goes }
{
    !does_wait && runs(harts, hart) == goes
}

// A change point, if it is at a step from one up to another; else the latter.
#[inline]
fn nearer(point: u64, from: u64, to: u64) -> u64
    requires { from ≤ to }
    ensures ahead { from ≤ result }
    ensures within { result ≤ to }
    ensures none { from ≤ point → point < result → ⊥ }
{
    if from <= point && point < to {
        point
    } else {
        to
    }
}

// Moves a hart to the end of an order.
fn let_fall<A: Allocator>(order: &mut Vec<u32, A>, hart: u32) -> Result<(), AllocError>
    ensures { IfOk result (λ _. order.new.items ≡ fallen hart order.old.items) }
{
    order.retain(|other| *other != hart);
    order.push(hart)?;
    Ok(())
}

impl<A: Allocator + Copy> Priorities<A> {
    /// The state at a seed: the order of the harts, and one change point less than the depth, each
    /// at one of so many places.
    pub(crate) fn new(
        alloc: A,
        harts: u32,
        depth: Depth,
        places: u64,
        seed: u64,
    ) -> Result<Priorities<A>, AllocError>
        requires { 0 < places }
        ensures { IfOk result (λ priorities. drawing priorities ≡ priority_drawing harts depth.number places seed) }
    {
        let depth = depth.number();
        let mut priorities = Priorities {
            order: Vec::with_capacity(alloc, harts as usize)?,
            points: Vec::with_capacity(alloc, depth as usize)?,
            generator: seeded_generator(seed),
        };
        priorities.draw_order(harts)?;
        priorities.draw_points(depth - 1, places)?;
        Ok(priorities)
    }
}

impl<A: Allocator> Priorities<A> {
    // Inserts a hart at a drawn place in the order.
    fn draw_place(&mut self, hart: u32) -> Result<(), AllocError>
        ensures { IfOk result (λ _. drawing self.new ≡ with_priority_hart hart (drawing self.old)) }
    {
        let word = self.generator.next_word();
        let place = word as usize % (self.order.len() + 1);
        self.order.insert(place, hart)?;
        Ok(())
    }

    // Inserts all harts at drawn places.
    fn draw_order(&mut self, harts: u32) -> Result<(), AllocError>
        ensures { IfOk result (λ _. drawing self.new ≡ with_harts harts (drawing self.old)) }
    {
        'harts: for hart in 0..harts {
            self.draw_place(hart)?;
        }
        Ok(())
    }

    // Draws a change point.
    fn draw_point(&mut self, places: u64) -> Result<(), AllocError>
        requires { 0 < places }
        ensures { IfOk result (λ _. drawing self.new ≡ with_point places (drawing self.old)) }
    {
        let word = self.generator.next_word();
        self.points.push(u64::from(word) % places)?;
        Ok(())
    }

    // Draws `points` change points.
    fn draw_points(&mut self, points: u32, places: u64) -> Result<(), AllocError>
        requires { 0 < places }
        ensures { IfOk result (λ _. drawing self.new ≡ with_points places points (drawing self.old)) }
    {
        'points: for _ in 0..points {
            self.draw_point(places)?;
        }
        Ok(())
    }

    // The first change point from a step on, if there is one before another step; else that one.
    fn next_point(&self, from: u64, to: u64) -> u64
        requires { from ≤ to }
        ensures ahead { from ≤ result }
        ensures within { result ≤ to }
        ensures none { (place : ℕ) → from ≤ place → place < result
            → is_point place self.now.points.items ≡ false }
    {
        let mut next = to;
        'points: for point in &self.points {
            next = nearer(*point, from, next);
        }
        next
    }

    // At a change point, moves the hart to the end of the order.
    fn pass(&mut self, place: u64, hart: u32) -> Result<(), AllocError>
        ensures { IfOk result (λ _. drawing self.new
            ≡ record (drawing self.old) { order = order_after place hart (drawing self.old) }) }
    {
        if self.points.contains(&place) {
            let_fall(&mut self.order, hart)?;
        }
        Ok(())
    }

    // The word that decides whether the next choice's store-conditional is refused.
    #[inline]
    fn draw_word(&mut self) -> u32
        ensures word { result ≡ (pcg32 (drawing self.old).generator).0 }
        ensures state { drawing self.new ≡ record (drawing self.old) {
          generator = (pcg32 (drawing self.old).generator).1;
        } }
    {
        self.generator.next_word()
    }

    // Moves a hart that waits to the end of the order.
    fn let_waiting_fall(&mut self, hart: u32, does_wait: bool) -> Result<(), AllocError>
        ensures { IfOk result (λ _. drawing self.new ≡ waiting_fallen does_wait hart (drawing self.old)) }
    {
        if does_wait {
            let_fall(&mut self.order, hart)?;
        }
        Ok(())
    }

    // Draws the choice at a step, given the harts' states: the first hart of the order that runs.
    // One word decides whether its store-conditional is refused; at a change point the hart then
    // falls to the end of the order.
    fn next_choice(
        &mut self,
        place: u64,
        harts: &[Hart],
        refusals: Refusals,
    ) -> Result<Choice, AllocError>
        ensures choice { IfOk result (λ choice.
            choice ≡ next_priority_choice refusals (map hart_of harts.now) (drawing self.old)) }
        ensures state { IfOk result (λ _.
            drawing self.new ≡ after_priority_choice place (map hart_of harts.now) (drawing self.old)) }
    {
        let hart = first_running(&self.order, harts);
        let word = self.generator.next_word();
        self.pass(place, hart)?;
        Ok(Choice {
            hart,
            refuse: refusals.refuses(word),
        })
    }
}

/// A source of choices by priorities, with these refusals.
#[derive(Drop)]
pub(crate) struct ByPriorities<A: Allocator> {
    // Boxed, since its order is passed by address: beside it the refusals would be read from memory
    // at each step, which takes 7 more host instructions.
    priorities: Box<Priorities<A>, A>,
    refusals: Refusals,
    // The hart that was chosen last.
    watch: Option<Watch>,
}

impl<A: Allocator + Copy> ByPriorities<A> {
    /// The state at a seed, with this depth and change points at so many places.
    pub(crate) fn new(
        alloc: A,
        harts: u32,
        depth: Depth,
        refusals: Refusals,
        places: u64,
        seed: u64,
    ) -> Result<ByPriorities<A>, AllocError>
        requires { 0 < places }
        ensures choices { IfOk result (λ p. (steps : ℕ) (w : World) → priority_choices_drawn p.refusals 0 steps (drawing_watched p) w
            ≡ priority_choices w harts depth.number places refusals steps seed) }
        ensures there { IfOk result (λ p. All (λ h. h < harts) p.priorities.value.order.items) }
    {
        let priorities = Priorities::new(alloc, harts, depth, places, seed)?;
        Ok(ByPriorities {
            priorities: Box::new(alloc, priorities)?,
            refusals,
            watch: None,
        })
    }
}

impl<A: Allocator> ByPriorities<A> {
    /// The choice at a step of a machine's run. The only error is out of memory.
    pub(crate) fn next<S: Store, B: Allocator>(
        &mut self,
        step: u64,
        machine: &Machine<S, B>,
    ) -> Result<Choice, AllocError>
        requires some { 0 < length (world S.memory machine.now).harts }
        requires there { All (λ h. h < length (world S.memory machine.now).harts)
            self.old.priorities.value.order.items }
        ensures chooses { IfOk result (λ choice. choice ≡ next_priority_choice self.old.refusals
            (world S.memory machine.now).harts (drawing_watched self.old).drawing) }
        ensures state { IfOk result (λ _. drawing_watched self.new
            ≡ after_watched_choice step (world S.memory machine.now) (drawing_watched self.old)) }
        ensures refusals { IfOk result (λ _. self.new.refusals ≡ self.old.refusals) }
        ensures within { IfOk result (λ choice.
            choice.hart < length (world S.memory machine.now).harts) }
        ensures stays { IfOk result (λ _. All (λ h. h < length (world S.memory machine.now).harts)
            self.new.priorities.value.order.items) }
    {
        let choice = self
            .priorities
            .next_choice(step, machine.ends(), self.refusals)?;
        let hart = machine.hart(choice.hart as usize);
        let does_wait = waits(&mut self.watch, choice.hart, hart, machine.store());
        self.priorities.let_waiting_fall(choice.hart, does_wait)?;
        Ok(choice)
    }
    // The next choice, where a hart is the first that runs and no change point comes: it is of that
    // hart, with no look through the order and the change points. Also whether the hart waits, and
    // so falls.
    #[inline]
    fn go_on<R: Rule, S: Store, B: Allocator>(
        &mut self,
        rule: R,
        hart: u32,
        machine: &Machine<S, B>,
    ) -> Result<(Choice, bool), AllocError>
        requires same { (word : ℕ) → R.refused rule word ≡ is_refused self.old.refusals word }
        requires there { hart < length (world S.memory machine.now).harts }
        requires first { hart ≡ first_running (world S.memory machine.now).harts
            self.old.priorities.value.order.items }
        ensures choice { IfOk result (λ r. r.0 ≡ next_priority_choice self.old.refusals
            (world S.memory machine.now).harts (drawing_watched self.old).drawing) }
        ensures of_hart { IfOk result (λ r. r.0.hart ≡ hart) }
        ensures state { IfOk result (λ _. (place : ℕ)
            → is_point place self.old.priorities.value.points.items ≡ false
            → drawing_watched self.new
            ≡ after_watched_choice place (world S.memory machine.now) (drawing_watched self.old)) }
        ensures order { IfOk result (λ r. r.1 ≡ false
            → self.new.priorities.value.order.items ≡ self.old.priorities.value.order.items) }
        ensures points { IfOk result (λ _.
            self.new.priorities.value.points.items ≡ self.old.priorities.value.points.items) }
        ensures refusals { IfOk result (λ _. self.new.refusals ≡ self.old.refusals) }
    {
        let now = machine.hart(hart as usize);
        let does_wait = waits(&mut self.watch, hart, now, machine.store());
        let word = self.priorities.draw_word();
        self.priorities.let_waiting_fall(hart, does_wait)?;
        let refuse = rule.does_refuse(word);
        Ok((Choice { hart, refuse }, does_wait))
    }

    // Takes steps of the first hart that runs, from one up to another at most, with no change point
    // between: as long as it doesn't wait and goes on. Returns the step that follows. Inlined, since
    // a call at each step would take longer than the choice.
    #[inline(always)]
    fn run_first<R: Rule, S: Store, B: Allocator>(
        &mut self,
        rule: R,
        machine: &mut Machine<S, B>,
        chosen: &mut Chosen,
        from: u64,
        to: u64,
    ) -> Result<u64, AllocError>
        requires few { length (world S.memory machine.old).harts ≤ most_harts }
        requires some { 0 < length (world S.memory machine.old).harts }
        requires there { All (λ h. h < length (world S.memory machine.old).harts)
            self.old.priorities.value.order.items }
        requires ahead { from < to }
        requires quiet { (place : ℕ) → from ≤ place → place < to
            → is_point place self.old.priorities.value.points.items ≡ false }
        requires same { (word : ℕ) → R.refused rule word ≡ is_refused self.old.refusals word }
        ensures ahead { IfOk result (λ step. from < step) }
        ensures within { IfOk result (λ step. step ≤ to) }
        ensures harts { IfOk result (λ _. length (world S.memory machine.new).harts
            ≡ length (world S.memory machine.old).harts) }
        ensures stays { IfOk result (λ _. All (λ h. h < length (world S.memory machine.old).harts)
            self.new.priorities.value.order.items) }
        ensures ran { IfOk result (λ step. (steps : ℕ) → to ≤ steps → LeadsOn
            (priority_choices_drawn self.old.refusals from (steps - from) (drawing_watched self.old)
            (world S.memory machine.old))
            (world S.memory machine.old) (harts_of chosen.old)
            (priority_choices_drawn self.new.refusals step (steps - step) (drawing_watched self.new)
            (world S.memory machine.new))
            (world S.memory machine.new) (harts_of chosen.new)) }
    {
        let hart = first_running(&self.priorities.order, machine.ends());
        let goes = runs(machine.ends(), hart);
        let mut stays = true;
        let mut step = from;
        'steps: while stays && step < to {
            let (choice, does_wait) = self.go_on(rule, hart, machine)?;
            chosen.add(hart as usize);
            machine.step(choice)?;
            step += 1;
            stays = goes_on(does_wait, machine.ends(), hart, goes);
        }
        Ok(step)
    }

    // As `run_first`, by the rule of the refusals.
    #[inline(always)]
    fn run_quiet<S: Store, B: Allocator>(
        &mut self,
        machine: &mut Machine<S, B>,
        chosen: &mut Chosen,
        from: u64,
        to: u64,
    ) -> Result<u64, AllocError>
        requires few { length (world S.memory machine.old).harts ≤ most_harts }
        requires some { 0 < length (world S.memory machine.old).harts }
        requires there { All (λ h. h < length (world S.memory machine.old).harts)
            self.old.priorities.value.order.items }
        requires ahead { from < to }
        requires quiet { (place : ℕ) → from ≤ place → place < to
            → is_point place self.old.priorities.value.points.items ≡ false }
        ensures ahead { IfOk result (λ step. from < step) }
        ensures within { IfOk result (λ step. step ≤ to) }
        ensures harts { IfOk result (λ _. length (world S.memory machine.new).harts
            ≡ length (world S.memory machine.old).harts) }
        ensures stays { IfOk result (λ _. All (λ h. h < length (world S.memory machine.old).harts)
            self.new.priorities.value.order.items) }
        ensures ran { IfOk result (λ step. (steps : ℕ) → to ≤ steps → LeadsOn
            (priority_choices_drawn self.old.refusals from (steps - from) (drawing_watched self.old)
            (world S.memory machine.old))
            (world S.memory machine.old) (harts_of chosen.old)
            (priority_choices_drawn self.new.refusals step (steps - step) (drawing_watched self.new)
            (world S.memory machine.new))
            (world S.memory machine.new) (harts_of chosen.new)) }
    {
        let refusals = self.refusals;
        if refusals.is_usual() {
            self.run_first(OneIn16, machine, chosen, from, to)
        } else {
            self.run_first(refusals, machine, chosen, from, to)
        }
    }

    // Takes one step or more, from one up to another at most, and returns the step that follows.
    #[inline(always)]
    fn run_some<S: Store, B: Allocator>(
        &mut self,
        machine: &mut Machine<S, B>,
        chosen: &mut Chosen,
        from: u64,
        to: u64,
    ) -> Result<u64, AllocError>
        requires few { length (world S.memory machine.old).harts ≤ most_harts }
        requires some { 0 < length (world S.memory machine.old).harts }
        requires there { All (λ h. h < length (world S.memory machine.old).harts)
            self.old.priorities.value.order.items }
        requires ahead { from < to }
        ensures ahead { IfOk result (λ step. from < step) }
        ensures within { IfOk result (λ step. step ≤ to) }
        ensures harts { IfOk result (λ _. length (world S.memory machine.new).harts
            ≡ length (world S.memory machine.old).harts) }
        ensures stays { IfOk result (λ _. All (λ h. h < length (world S.memory machine.old).harts)
            self.new.priorities.value.order.items) }
        ensures ran { IfOk result (λ step. (steps : ℕ) → to ≤ steps → LeadsOn
            (priority_choices_drawn self.old.refusals from (steps - from) (drawing_watched self.old)
            (world S.memory machine.old))
            (world S.memory machine.old) (harts_of chosen.old)
            (priority_choices_drawn self.new.refusals step (steps - step) (drawing_watched self.new)
            (world S.memory machine.new))
            (world S.memory machine.new) (harts_of chosen.new)) }
    {
        let quiet = self.priorities.next_point(from, to);
        if from < quiet {
            return self.run_quiet(machine, chosen, from, quiet);
        }
        let choice = self.next(from, machine)?;
        chosen.add(choice.hart as usize);
        machine.step(choice)?;
        Ok(from + 1)
    }
}

impl<A: Allocator> Chooser for ByPriorities<A> {
    ghost choices = { λ p step n w. priority_choices_drawn p.refusals step n (drawing_watched p) w };

    ghost IsFor = { λ p n. (0 < n) × All (λ h. h < n) p.priorities.value.order.items };

    ghost none = { λ p step w. no_priorities p.refusals step (drawing_watched p) w };

    #[inline(always)]
    fn run<S: Store, B: Allocator>(
        &mut self,
        machine: &mut Machine<S, B>,
        chosen: &mut Chosen,
        from: u64,
        to: u64,
    ) -> Result<(), AllocError> {
        let mut step = from;
        'runs: while step < to {
            step = self.run_some(machine, chosen, step, to)?;
        }
        Ok(())
    }

    fn span(&self, harts: u32) -> Range<u32> {
        0..harts
    }
}
