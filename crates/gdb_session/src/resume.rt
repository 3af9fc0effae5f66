//! The moves that `vCont` asks for.
ghost use Rattle.std.specs.Prelude.{◌≡◌};
ghost use Rattle.std.specs.List.{list_all, list_any};
ghost use Rattle.gdb_requests.specs.declared.request.ThreadAction.{ThreadAction as Told};
ghost use Rattle.gdb_session.specs.Resumes.{any_step, first_step, hart_meant, is_for, is_for_all, is_named_there, own_action, own_step, resume_asked, resumed, step_range};
ghost use Rattle.gdb_session.specs.Talk.{hart_count, talk_of};

use crate::asked::no_range;
use crate::movement::Move;
use crate::talk::Talk;
use gdb_moves::{AddressRange, Whose};
use gdb_requests::{Action, ThreadAction, Threads};
use std::alloc::Allocator;

// A step that actions ask for.
#[derive(Clone, Copy)]
enum Stepping {
    // That of a hart that leaves the range.
    Hart { hart: u32, range: AddressRange },
    // That of any hart.
    Any { range: AddressRange },
}

// Whether an action is for all threads.
#[tactic(auto, unfolding(crate::specs::Resumes::is_for_all))]
fn is_for_all(threads: Option<Threads>) -> bool
    ensures { result ≡ is_for_all threads }
{
    match threads {
        None | Some(Threads::All) => true,
        Some(Threads::Any) | Some(Threads::One(_)) => false,
    }
}

// The hart that an action means.
#[tactic(auto, unfolding(crate::specs::Resumes::hart_meant))]
fn hart_meant(read: u32, threads: Option<Threads>) -> u32
    ensures { result ≡ hart_meant read threads }
{
    match threads {
        Some(Threads::One(thread)) => thread.saturating_sub(1),
        _ => read,
    }
}

// Whether an action is for a hart.
fn is_for(read: u32, hart: u32, action: ThreadAction) -> bool
    ensures { result ≡ is_for read hart action }
{
    is_for_all(action.threads) || hart_meant(read, action.threads) == hart
}

// The first action for a hart.
fn own_action(read: u32, hart: u32, actions: &[ThreadAction]) -> Option<Action>
    ensures { result ≡ own_action read hart actions.now }
{
    'actions: for action in actions {
        if is_for(read, hart, *action) {
            return Some(action.action);
        }
    }
    None
}

// The range that an action's step leaves, if it is a step.
#[tactic(auto, unfolding(crate::specs::Resumes::step_range))]
fn step_range(action: Option<Action>) -> Option<AddressRange>
    ensures { result ≡ step_range action }
{
    match action {
        None | Some(Action::Continue) => None,
        Some(Action::Step) => Some(no_range()),
        Some(Action::Range { from, to }) => Some(AddressRange { from, to }),
    }
}

// The step of a hart, if its own action is one.
fn own_step(read: u32, actions: &[ThreadAction], hart: u32) -> Option<Stepping>
    ensures { result ≡ own_step read actions.now hart }
{
    let range = step_range(own_action(read, hart, actions))?;
    Some(Stepping::Hart { hart, range })
}

// The step of any hart, if an action for all is one.
fn any_step(action: Action) -> Option<Stepping>
    ensures { result ≡ any_step action }
{
    let range = step_range(Some(action))?;
    Some(Stepping::Any { range })
}

// The step of the first hart that actions mean whose own action is one, up to the first action for
// all, which may be a step of any hart.
fn first_step(read: u32, all: &[ThreadAction]) -> Option<Stepping>
    ensures { result ≡ first_step read all.now all.now }
{
    'actions: for action in all {
        if is_for_all(action.threads) {
            return any_step(action.action);
        }
        let step = own_step(read, all, hart_meant(read, action.threads));
        if step.is_some() {
            return step;
        }
    }
    None
}

// Whether an action is for all threads.
fn any_for_all(actions: &[ThreadAction]) -> bool
    ensures { result ≡ list_any (λ (a : Told). is_for_all a.threads) actions.now }
{
    actions.iter().any(|action| is_for_all(action.threads))
}

// A move by a step, or without one by a hart.
fn resumed(others: bool, hart: u32, step: Option<Stepping>) -> Move
    ensures { result ≡ resumed others hart step }
{
    match step {
        Some(Stepping::Any { range }) => Move::StepAny { range },
        Some(Stepping::Hart { hart, range }) => {
            if others {
                Move::Step { hart, range }
            } else {
                Move::StepAlone { hart, range }
            }
        }
        None => {
            if others {
                Move::Ahead(Whose::All)
            } else {
                Move::Ahead(Whose::One(hart))
            }
        }
    }
}

impl<A: Allocator + Copy> Talk<A> {
    // Whether the thread that an action names is there.
    #[tactic(auto, unfolding(crate::specs::Resumes::is_named_there))]
    fn is_named_there(&self, threads: Option<Threads>) -> bool
        ensures { result ≡ is_named_there (hart_count (talk_of self.now)) threads }
    {
        match threads {
            Some(Threads::One(thread)) => self.hart_of_thread(thread).is_some(),
            _ => true,
        }
    }

    // Whether all threads that actions name are there.
    fn all_named_there(&self, actions: &[ThreadAction]) -> bool
        ensures { result ≡ list_all
            (λ (a : Told). is_named_there (hart_count (talk_of self.now)) a.threads) actions.now }
    {
        actions
            .iter()
            .all(|action| self.is_named_there(action.threads))
    }

    /// The move that actions of `vCont` ask for. The first action that is for a thread is its own.
    /// The first thread that is named and has a step as its own action steps, alone unless there is
    /// an action for all; else, if the first action for all is a step, whichever thread comes next.
    /// Without a step all go on, or the first thread that is named alone. `None` if there is no
    /// action, or a thread isn't there.
    #[tactic(auto, unfolding(crate::specs::Resumes::resume_asked))]
    pub fn resume_asked(&self, actions: &[ThreadAction]) -> Option<Move>
        ensures { result ≡ resume_asked (talk_of self.now) actions.now }
    {
        let first = actions.first()?;
        if !self.all_named_there(actions) {
            return None;
        }
        let read = self.hart_read();
        let step = first_step(read, actions);
        let hart = hart_meant(read, first.threads);
        Some(resumed(any_for_all(actions), hart, step))
    }
}
