//! The steps of a run, in order.
ghost use Rattle.std.specs.Prelude.{◌≡◌, ◌<◌, ◌≤◌, ◌+◌, ◌^◌, [], ◌∷◌, Err, IfOk, OnOk, IfErr, All, max, length, slice_get};
ghost use Rattle.debug_session.specs.Paged.{paged_world};
ghost use Rattle.debug_session.specs.Steps.{event_of, view_of, steps_from, shown_steps};
ghost use Rattle.debug_session.specs.Session.{session, length_of};
ghost use Rattle.debug_session.specs.declared.fault.MoveFault.TheVariants.{PastEnd};

use crate::debugger::Debugger;
use crate::fault::MoveFault;
use crate::paged_machine::PagedMachine;
use crate::stepping::tick;
use hart_step::{Hart, HartState};
use machine::Choice;
use mem_store::Store;
use std::alloc::{AllocError, Allocator};

/// The event of a hart's step.
#[derive(Clone, Copy, PartialEq, Eq)]
pub enum Event {
    /// The hart has already stopped; its step does nothing.
    Stopped,
    /// A byte of the word at `pc` is not executable.
    NoFetch,
    /// The hart executes this word, which may spell no instruction.
    Word(u32),
}

/// One step of a run.
#[derive(Clone, Copy, PartialEq, Eq)]
pub struct StepView {
    /// The number of choices done before.
    pub index: usize,
    /// The choice.
    pub choice: Choice,
    /// The hart's `pc` before its step.
    pub pc: u32,
    /// The event of the step.
    pub event: Event,
}

// The event of a hart's next step.
fn event_of<S: Store>(hart: &Hart, store: &S) -> Event
    ensures { result ≡ event_of hart.now.state (S.memory store.now) hart.now.pc }
{
    match hart.state {
        HartState::Running => match store.fetch(hart.pc) {
            Some(word) => Event::Word(word),
            None => Event::NoFetch,
        },
        HartState::Exited(_) | HartState::Faulted(_) => Event::Stopped,
    }
}

// The step of choice `index`, before it is done.
fn view_of<A: Allocator + Copy>(machine: &PagedMachine<A>, index: usize, choice: Choice) -> StepView
    requires { choice.hart < length (paged_world machine.now).harts }
    ensures { result ∷ [] ≡ view_of index choice (paged_world machine.now).memory
        (slice_get (paged_world machine.now).harts choice.hart) }
{
    let hart = machine.hart(choice.hart as usize);
    StepView {
        index,
        choice,
        pc: hart.pc,
        event: event_of(hart, machine.store()),
    }
}

// The steps of choices, numbered from `first` on.
fn views_of<A: Allocator + Copy>(
    alloc: A,
    machine: &mut PagedMachine<A>,
    first: usize,
    choices: &[Choice],
) -> Result<Vec<StepView, A>, AllocError>
    requires harts { All (λ c. c.hart < length (paged_world machine.old).harts) choices.now }
    requires room { first + length choices.now < 2 ^ 63 }
    ensures { IfOk result (λ views. views.items
        ≡ steps_from (paged_world machine.old) first choices.now) }
{
    let mut views = Vec::new(alloc);
    let mut cost = 0;
    'steps: for (i, choice) in choices.iter().enumerate() {
        views.push(view_of(machine, first + i, *choice))?;
        tick(machine, &mut cost, *choice)?;
    }
    Ok(views)
}

impl<A: Allocator + Copy> Debugger<A> {
    /// The steps of the choices from index `from` to `to - 1`, each with its event; none unless
    /// `to` is above `from`. The position does not change.
    pub fn steps(&self, alloc: A, from: usize, to: usize) -> Result<Vec<StepView, A>, MoveFault>
        ensures ok { IfOk result (λ views. views.items ≡ shown_steps (session self.now) from to) }
        ensures inside { OnOk result ((from ≤ length_of (session self.now))
            × (to ≤ length_of (session self.now))) }
        ensures past { IfErr result (λ e. e ≡ PastEnd
            → length_of (session self.now) < max from to) }
        ensures far { length_of (session self.now) < max from to → result ≡ Err PastEnd }
    {
        let length = self.track.choices.len();
        if from > length || to > length {
            return Err(MoveFault::PastEnd);
        }
        match self.views(alloc, from, to) {
            Ok(views) => Ok(views),
            Err(AllocError) => Err(MoveFault::Memory),
        }
    }

    // The steps of the choices from index `from` to `to - 1`.
    fn views(&self, alloc: A, from: usize, to: usize) -> Result<Vec<StepView, A>, AllocError>
        requires from { from ≤ length_of (session self.now) }
        requires to { to ≤ length_of (session self.now) }
        ensures { IfOk result (λ views. views.items ≡ shown_steps (session self.now) from to) }
    {
        let (mut machine, _) = self.track.machine_at(alloc, from)?;
        let (_, rest) = self.track.choices.split_at(from);
        let (part, _) = rest.split_at(to.saturating_sub(from));
        views_of(alloc, &mut machine, from, part)
    }
}
