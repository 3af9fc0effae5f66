//! A hart on a thread, beside a shared book.
ghost use Rattle.std.specs.Prelude.{◌≡◌, ◌+◌, ◌<◌, ◌≤◌, length, IfOk, IfErr, OnOk, OnErr, Some};
ghost use Rattle.mem_store.specs.Image.{segments_memory};
ghost use Rattle.hart_step.specs.Hart.{hart_of};
ghost use Rattle.hart_local.specs.LocalStep.{class_of, walk};
ghost use Rattle.hart_local.specs.declared.stepping.Class.{Class};
ghost use Rattle.thread_book.specs.Book.{IsSoundBook};
ghost use Rattle.thread_book.specs.Present.{IsFresh, IsPresented, GivesNone, RefusesToTake};
ghost use Rattle.thread_run.specs.Seat.{IsCommitted, IsNotTaken, with_refusal};

use crate::fault::CommitFault;
use crate::shared::Shared;
use hart_step::Hart;
use std::alloc::Allocator;
use std::marker::Model;
use std::sync::Wait;
use thread_book::{Book, PresentFault, Segment, SegmentFault, each_book_is_sound};

/// A hart's segment, outside the lock. Its local steps access no shared state.
#[derive(Drop)]
pub struct Seat<A: Allocator> {
    segment: Segment<A>,
}

impl<A: Allocator> Model for Seat<A> {
    ghost use Rattle.thread_book.specs.Segment.{SegmentState};

    ghost Value = { SegmentState };

    ghost view = { λ s. s.segment };
}

impl<A: Allocator> Seat<A> {
    /// The hart's number, from 0.
    pub fn hart(&self) -> u32
        ensures { result ≡ self.now.hart }
    {
        self.segment.hart()
    }

    /// The hart at its last entry in the book.
    pub fn slot(&self) -> &Hart
        ensures { result.now ≡ self.now.slot }
    {
        self.segment.slot()
    }

    /// The number of local steps since.
    pub fn local(&self) -> u32
        ensures { result ≡ self.now.local }
    {
        self.segment.local()
    }

    /// The hart after them.
    pub fn reached(&self) -> &Hart
        ensures result { result.now ≡ self.now.reached }
        ensures walked { walk (segments_memory self.now.code) self.now.local (hart_of self.now.slot)
            ≡ Some (hart_of result.now) }
    {
        self.segment.reached()
    }

    /// Does local steps while the next one is local and their number is below `limit`; returns the
    /// number of new ones. It takes no lock and never waits.
    pub fn advance_local(&mut self, limit: u32) -> u32
        ensures walked { walk (segments_memory self.old.code) result (hart_of self.old.reached)
            ≡ Some (hart_of self.new.reached) }
        ensures count { self.new
            ≡ record self.old { local = self.old.local + result; reached = self.new.reached } }
        ensures limit { 0 < result → self.new.local ≤ limit }
        ensures stops { self.new.local < limit
            → class_of (segments_memory self.new.code) (hart_of self.new.reached) ≡ Class.Shared }
    {
        self.segment.advance(limit)
    }

    /// Takes the lock, and enters the local steps and one more step in the book: they become its
    /// next entry, all at that moment. The seat is then the hart as it is in the book.
    pub fn commit<R: Wait>(
        &mut self,
        rt: &R,
        shared: &Shared<A>,
        refuse: bool,
    ) -> Result<(), CommitFault>
        ensures committed { OnOk result (IsCommitted self.old refuse self.new) }
        ensures fault { IfErr result (λ fault. IsNotTaken self.old fault) }
        ensures unchanged { OnErr result (self.new ≡ self.old) }
    {
        let mut guard = shared.book.lock(rt);
        match self.present_to(&mut guard, refuse) {
            Ok(()) => Ok(()),
            Err(fault) => Err(CommitFault::from(fault)),
        }
    }

    /// Presents the segment to a book; `refuse` is the refusal of the step after the local ones.
    pub(crate) fn present_to(
        &mut self,
        book: &mut Book<A>,
        refuse: bool,
    ) -> Result<(), PresentFault>
        ensures presented { OnOk result
            (IsPresented book.old (with_refusal self.old refuse) book.new self.new) }
        ensures fault { IfErr result (λ fault. RefusesToTake book.old self.old fault) }
        ensures unchanged { OnErr result ((book.new ≡ book.old) × (self.new ≡ self.old)) }
        ensures sound { IsSoundBook book.old }
    {
        each_book_is_sound(book);
        let was = self.segment.refuse();
        self.segment.set_refuse(refuse);
        match book.present(&mut self.segment) {
            Ok(()) => Ok(()),
            Err(fault) => {
                self.segment.set_refuse(was);
                Err(fault)
            }
        }
    }

    /// A seat for a hart of this book.
    pub(crate) fn of(book: &Book<A>, hart: u32) -> Result<Seat<A>, SegmentFault>
        ensures fresh { IfOk result (λ seat. IsFresh book.now hart seat) }
        ensures there { IfOk result (λ _. hart < length book.now.inputs) }
        ensures fault { IfErr result (λ fault. GivesNone book.now hart fault) }
        ensures sound { IsSoundBook book.now }
    {
        each_book_is_sound(book);
        match book.segment(hart) {
            Ok(segment) => Ok(Seat { segment }),
            Err(fault) => Err(fault),
        }
    }
}
