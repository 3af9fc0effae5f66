//! The state that the workers of a run share, under one lock.
ghost use Rattle.std.specs.Prelude.{◌≡◌, ◌+◌, ◌<◌, ◌≤◌, [], IfOk, IfErr, length, replicate, vec_len, slice_index, ◌||◌, ◌==◌, if◌then◌else◌};
ghost use Rattle.mem_store.specs.Image.{segments_memory};
ghost use Rattle.hart_step.specs.Hart.{hart_of};
ghost use Rattle.hart_local.specs.LocalStep.{class_of};
ghost use Rattle.hart_local.specs.declared.stepping.Class.{Class};
ghost use Rattle.thread_run.specs.Outcome.{IsOutcome};
ghost use Rattle.thread_run.specs.Running.{IsAfter, tickets_after};
ghost use Rattle.thread_run.specs.Seat.{GivesNoSeat};
ghost use Rattle.thread_gate.specs.Stopped.{is_stopped};

use crate::entered::Entered;
use crate::fault::CommitFault;
use crate::limits::Limits;
use crate::room::{ends_well, room_after, room_for};
use crate::seat::Seat;
use crate::terms::Terms;
use hart_step::Hart;
use std::alloc::Allocator;
use std::marker::Model;
use std::sync::ledger;
use std::sync::ledger::Share;
use thread_book::{Book, SegmentFault};
use thread_gate::{Gate, Plan, is_planned, is_stopped};

/// The book, the number of each hart's choices in it, what is left of the total, and a ticket for
/// each hart that is to make further choices.
#[derive(Drop)]
pub struct Running<T: Terms, A: Allocator> {
    book: Book<A>,
    owned: Vec<u32, A>,
    plan: Plan<A>,
    budget: u32,
    room: Option<u32>,
    tickets: ledger::Book<T>,
}

impl<T: Terms, A: Allocator> Model for Running<T, A> {
    ghost use Rattle.std.specs.Prelude.{◌≡◌};
    ghost use Rattle.thread_book.specs.Book.{BookValue};
    ghost use Rattle.thread_run.specs.Running.{IsRunning};

    ghost Value = { BookValue };

    ghost view = { λ s. s.book };

    ghost invariant = { λ s.
        IsRunning T.image T.inputs T.budget T.total T.plan s.book s.owned.items s.room
        s.tickets.total
        × (s.plan.keys ≡ T.plan) × (s.budget ≡ T.budget) };
}

impl<T: Terms, A: Allocator> Running<T, A> {
    /// A run without any step, with a ticket for each hart.
    pub(crate) fn new(
        book: Book<A>,
        owned: Vec<u32, A>,
        plan: Plan<A>,
        limits: Limits,
        tickets: ledger::Book<T>,
    ) -> Running<T, A>
        requires book { book ≡ record { image = T.image; inputs = T.inputs; history = [] } }
        requires owned { owned.items ≡ replicate (length T.inputs) 0 }
        requires plan { plan.keys ≡ T.plan }
        requires budget { (limits.budget ≡ T.budget) × (0 < T.budget) }
        requires total { limits.total ≡ T.total }
        requires tickets { tickets.total ≡ length T.inputs }
    {
        Running {
            book,
            owned,
            plan,
            budget: limits.budget,
            room: limits.total,
            tickets,
        }
    }

    /// A seat for a hart.
    pub(crate) fn seat(&self, hart: u32) -> Result<Seat<A>, CommitFault>
        ensures fresh { IfOk result (λ seat. seat.local ≡ 0) }
        ensures fault { IfErr result (λ fault. GivesNoSeat self.now hart fault) }
    {
        match Seat::of(&self.book, hart) {
            Ok(seat) => Ok(seat),
            Err(SegmentFault::NoHart) => Err(CommitFault::Stale),
            Err(SegmentFault::Memory) => Err(CommitFault::Memory),
        }
    }

    /// Takes a seat's segment into the book, with the refusal of the plan, and returns what its hart
    /// does then. The hart has `left` choices to make, and makes up to `limit` of them at once: its
    /// next step is shared or the last of these, and its gate has returned. If what is left of the
    /// total is less than the segment, nothing is entered. The hart's ticket is spent when it is done.
    pub(crate) fn commit<G: Gate>(
        &mut self,
        seat: &mut Seat<A>,
        ticket: &mut Share<T>,
        left: u32,
        limit: u32,
    ) -> Result<Entered, CommitFault>
        requires ticket { ticket.old.amount ≡ 1 }
        requires arrived { G.HasArrived seat.old.hart seat.old.local }
        requires within { (seat.old.local < limit) × (limit ≤ left) }
        requires whole { seat.old.local + 1 < limit
            → class_of (segments_memory seat.old.code) (hart_of seat.old.reached) ≡ Class.Shared }
        ensures amount { IfOk result (λ entered. ticket.new.amount ≡ tickets_after entered) }
        ensures parts { ticket.new.parts ≡ ticket.old.parts }
        ensures local { IfOk result (λ entered. IsAfter entered seat.old.local seat.new.local) }
    {
        let hart = seat.hart();
        let at = hart as usize;
        if at >= self.owned.len() {
            return Err(CommitFault::Stale);
        }
        let made = owned_by(&self.owned, at);
        let local = seat.local();
        let budget = self.budget;
        let room = room_for(self.room, left);
        if room == 0 {
            self.tickets.sub(ticket, 1);
            return Ok(Entered::Done);
        }
        if room <= local {
            return Ok(Entered::Short(room));
        }
        // No worker does any of these; the tests keep the plan's number in 32 bits, each hart within
        // its budget, and each entry whole.
        if is_stopped(seat.slot()) || made >= budget || left != budget - made {
            return Err(CommitFault::Stale);
        }
        if !ends_well(local + 1, limit, left, room) {
            return Err(CommitFault::Stale);
        }
        let refuse = is_planned(&self.plan, hart, made + local);
        match seat.present_to(&mut self.book, refuse) {
            Ok(()) => {}
            Err(fault) => return Err(CommitFault::from(fault)),
        }
        let made = made + local + 1;
        self.owned[at] = made;
        self.room = room_after(self.room, local + 1);
        let done = is_done(seat.slot(), made, budget);
        self.tickets.sub(ticket, spent_by(done));
        Ok(if done { Entered::Done } else { Entered::GoesOn })
    }

    /// The book. If all tickets are spent, every hart is done or the total is used up.
    pub(crate) fn finish(self, all: &mut Share<T>) -> Book<A>
        requires whole { all.old.parts ≡ T.parts }
        requires spent { all.old.amount ≡ 0 }
        ensures { IsOutcome T.image T.inputs T.budget T.total T.plan result }
    {
        let Running {
            book,
            owned: _,
            plan: _,
            budget: _,
            room: _,
            mut tickets,
        } = self;
        tickets.audit(all);
        book
    }
}

// The number of a hart's choices in the book.
fn owned_by<A: Allocator>(owned: &Vec<u32, A>, at: usize) -> u32
    requires { at < vec_len owned.now }
    ensures { result ≡ slice_index owned.now.items at }
{
    owned[at]
}

// Whether a hart with this many choices has stopped or used its budget up.
fn is_done(hart: &Hart, made: u32, budget: u32) -> bool
    ensures { result ≡ (is_stopped hart.now.state || (made == budget)) }
{
    is_stopped(hart) || made == budget
}

// The number of tickets that a hart spends: 1 when it is done, else 0.
fn spent_by(done: bool) -> u64
    ensures { result ≡ (if done then 1 else 0) }
{
    u64::from(done)
}
