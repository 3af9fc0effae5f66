//! The local steps of one hart that are not in a book yet.
ghost use Rattle.std.specs.Prelude.{◌≡◌, ◌+◌, ◌<◌, ◌≤◌, false, Some};
ghost use Rattle.mem_store.specs.Image.{segments_memory};
ghost use Rattle.hart_step.specs.Hart.{hart_of};
ghost use Rattle.history.specs.History.{entry};
ghost use Rattle.hart_local.specs.LocalStep.{class_of, walk};
ghost use Rattle.hart_local.specs.declared.stepping.Class.{Class};

use hart_local::{Code, local_steps};
use hart_step::Hart;
use history::Entry;
use std::alloc::Allocator;
use std::marker::Model;
use std::sync::Arc;

/// The local steps of a hart since its last entry in a book. They are no part of the book until the
/// segment is presented.
#[derive(Drop)]
pub struct Segment<A: Allocator> {
    pub(crate) hart: u32,
    pub(crate) slot: Hart,
    pub(crate) code: Arc<Code<A>, A>,
    pub(crate) local: u32,
    pub(crate) reached: Hart,
    pub(crate) refuse: bool,
}

impl<A: Allocator> Model for Segment<A> {
    ghost use Rattle.std.specs.Prelude.{◌≡◌, Some};
    ghost use Rattle.std.specs.Arc.{arc_value};
    ghost use Rattle.mem_store.specs.Image.{segments_memory};
    ghost use Rattle.hart_step.specs.Hart.{hart_of};
    ghost use Rattle.hart_local.specs.LocalStep.{walk};
    ghost use Rattle.thread_book.specs.Segment.{SegmentState};

    ghost Value = { SegmentState };

    ghost view = { λ s. record {
      hart = s.hart;
      slot = s.slot;
      code = arc_value s.code;
      local = s.local;
      reached = s.reached;
      refuse = s.refuse;
    } };

    ghost invariant = { λ s. walk (segments_memory (arc_value s.code)) s.local (hart_of s.slot)
        ≡ Some (hart_of s.reached) };
}

impl<A: Allocator> Segment<A> {
    /// The hart's number, from 0.
    pub fn hart(&self) -> u32
        ensures { result ≡ self.now.hart }
    {
        self.hart
    }

    /// The hart in the book at the segment's start.
    pub fn slot(&self) -> &Hart
        ensures { result.now ≡ self.now.slot }
    {
        &self.slot
    }

    /// The number of local steps since.
    pub fn local(&self) -> u32
        ensures { result ≡ self.now.local }
    {
        self.local
    }

    /// The hart after them.
    pub fn reached(&self) -> &Hart
        ensures result { result.now ≡ self.now.reached }
        ensures walked { walk (segments_memory self.now.code) self.now.local (hart_of self.now.slot)
            ≡ Some (hart_of result.now) }
    {
        &self.reached
    }

    /// Whether a store-conditional of the step after the local ones fails.
    pub fn refuse(&self) -> bool
        ensures { result ≡ self.now.refuse }
    {
        self.refuse
    }

    /// The book's entry of the segment.
    pub(crate) fn entry(&self) -> Entry
        ensures entry { result ≡ entry self.now.hart self.now.local self.now.refuse }
        ensures walked { walk (segments_memory self.now.code) self.now.local (hart_of self.now.slot)
            ≡ Some (hart_of self.now.reached) }
    {
        Entry {
            hart: self.hart,
            local: self.local,
            refuse: self.refuse,
        }
    }

    /// Restarts from a slot, without steps and without a refusal.
    pub(crate) fn restart(&mut self, slot: Hart)
        ensures { self.new ≡ record self.old {
          slot = slot;
          local = 0;
          reached = slot;
          refuse = false;
        } }
    {
        self.slot = slot;
        self.local = 0;
        self.reached = slot;
        self.refuse = false;
    }

    /// Sets whether a store-conditional of the step after the local ones fails.
    pub fn set_refuse(&mut self, refuse: bool)
        ensures { self.new ≡ record self.old { refuse = refuse } }
    {
        self.refuse = refuse;
    }

    /// Does local steps while the next one is local and their number is below `limit`; returns the
    /// number of new ones. It reads only the code that the segment began with, no shared state.
    pub fn advance(&mut self, limit: u32) -> u32
        ensures walked { walk (segments_memory self.old.code) result (hart_of self.old.reached)
            ≡ Some (hart_of self.new.reached) }
        ensures count { self.new
            ≡ record self.old { local = self.old.local + result; reached = self.new.reached } }
        ensures limit { 0 < result → self.new.local ≤ limit }
        ensures stops { self.new.local < limit
            → class_of (segments_memory self.new.code) (hart_of self.new.reached) ≡ Class.Shared }
    {
        if self.local >= limit {
            return 0;
        }
        let done = local_steps(&mut self.reached, &self.code, limit - self.local);
        self.local += done;
        done
    }
}
