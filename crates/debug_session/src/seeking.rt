//! Searches, forwards and backwards.
ghost use Rattle.std.specs.Prelude.{◌≡◌, ◌<◌, ◌≤◌, ◌+◌, ◌-◌, ◌*◌, OnOk, OnErr, IfOk, IfSome};
ghost use Rattle.debug_session.specs.Paged.{paged_world};
ghost use Rattle.debug_session.specs.Searches.{IsLeastStop, IsGreatestStop};
ghost use Rattle.debug_session.specs.Session.{session, moved, length_of, world_at, reason_at, stop_behind, found_or, last_found, first_of, last_of, next_of, earlier_of, next_found, earlier_found, steps_on, steps_below, steps_to, steps_back};

use crate::debugger::Debugger;
use crate::paged_machine::PagedMachine;
use crate::stop::Stop;
use crate::track::BLOCK;
use crate::wanted::Wanted;
use std::alloc::{AllocError, Allocator};

/// The result of a search: a position, the reason to stop there, and the machine there.
#[derive(Drop)]
pub struct Target<A: Allocator + Copy, R: Copy> {
    pub(crate) machine: PagedMachine<A>,
    pub(crate) position: usize,
    pub(crate) reason: Option<R>,
    // The number of steps that the search executed.
    pub(crate) cost: u64,
}

impl<A: Allocator + Copy, R: Copy> Target<A, R> {
    /// The number of choices done there.
    pub fn position(&self) -> usize
        ensures { result ≡ self.now.position }
    {
        self.position
    }

    /// The reason to stop there; `None` at the end or the start.
    pub fn reason(&self) -> Option<R>
        ensures { result ≡ self.now.reason }
    {
        self.reason
    }
}

// A position of a search backwards.
#[derive(Clone, Copy)]
struct Place<R: Copy> {
    // The number of choices done there.
    position: usize,
    // The reason to stop there; `None` at the start.
    reason: Option<R>,
    // The number of steps that the search executed.
    cost: u64,
}

impl<A: Allocator + Copy> Debugger<A> {
    // The least position behind a wanted choice above `from`, or the end. The machine is that at
    // `from`.
    fn first_behind<W: Wanted<A>>(
        &self,
        start: PagedMachine<A>,
        wanted: &W,
        from: usize,
    ) -> Result<Target<A, W::Reason>, AllocError>
        requires from { from ≤ length_of (session self.now) }
        requires start { paged_world start ≡ world_at (session self.now) from }
        ensures found { IfOk result (λ t.
            (t.position, t.reason) ≡ first_of (W.reason wanted.now) (session self.now) from) }
        ensures least { IfOk result (λ t. IsLeastStop (reason_at (W.reason wanted.now) (session self.now))
            from (length_of (session self.now)) t.position t.reason) }
        ensures world { IfOk result (λ t.
            paged_world t.machine ≡ world_at (session self.now) t.position) }
        ensures inside { IfOk result (λ t. t.position ≤ length_of (session self.now)) }
        ensures cost { IfOk result (λ t. t.cost ≡ t.position - from) }
    {
        let mut machine = start;
        let mut cost = 0;
        let length = self.track.choices.len();
        'steps: for position in from..length {
            let choice = self.track.choices[position];
            let reason = wanted.step(&mut machine, choice)?;
            cost += 1;
            if reason.is_some() {
                return Ok(Target {
                    machine,
                    position: position + 1,
                    reason,
                    cost,
                });
            }
        }
        Ok(Target {
            machine,
            position: length,
            reason: None,
            cost,
        })
    }

    /// The least later position behind a wanted choice, or the end. The debugger does not move.
    pub fn next<W: Wanted<A>>(
        &self,
        alloc: A,
        wanted: &W,
    ) -> Result<Target<A, W::Reason>, AllocError>
        ensures found { IfOk result (λ t.
            (t.position, t.reason) ≡ next_of (W.reason wanted.now) (session self.now)) }
        ensures least { IfOk result (λ t. IsLeastStop (reason_at (W.reason wanted.now) (session self.now))
            (session self.now).position (length_of (session self.now)) t.position t.reason) }
        ensures world { IfOk result (λ t.
            paged_world t.machine ≡ world_at (session self.now) t.position) }
        ensures inside { IfOk result (λ t. t.position ≤ length_of (session self.now)) }
        ensures cost { IfOk result (λ t. t.cost ≡ steps_on (session self.now) t.position) }
    {
        let machine = self.machine.copy(alloc)?;
        self.first_behind(machine, wanted, self.position)
    }

    /// The least position behind a wanted choice, of those above `from`, or the end. The debugger
    /// does not move.
    pub fn first_from<W: Wanted<A>>(
        &self,
        alloc: A,
        wanted: &W,
        from: usize,
    ) -> Result<Target<A, W::Reason>, AllocError>
        requires { from ≤ length_of (session self.now) }
        ensures found { IfOk result (λ t.
            (t.position, t.reason) ≡ first_of (W.reason wanted.now) (session self.now) from) }
        ensures least { IfOk result (λ t. IsLeastStop (reason_at (W.reason wanted.now) (session self.now))
            from (length_of (session self.now)) t.position t.reason) }
        ensures world { IfOk result (λ t.
            paged_world t.machine ≡ world_at (session self.now) t.position) }
        ensures inside { IfOk result (λ t. t.position ≤ length_of (session self.now)) }
        ensures cost { IfOk result (λ t. t.cost ≡ steps_to from + (t.position - from)) }
    {
        let (machine, cost) = self.track.machine_at(alloc, from)?;
        let target = self.first_behind(machine, wanted, from)?;
        Ok(Target {
            machine: target.machine,
            position: target.position,
            reason: target.reason,
            cost: cost + target.cost,
        })
    }

    // The greatest position behind a wanted choice above 256 times `block` and at most `end`, if
    // there is one.
    fn place_in_block<W: Wanted<A>>(
        &self,
        alloc: A,
        wanted: &W,
        block: usize,
        end: usize,
    ) -> Result<Place<W::Reason>, AllocError>
        requires from { block * 256 ≤ end }
        requires to { end ≤ length_of (session self.now) }
        ensures found { IfOk result (λ place. found_or place.position place.reason
            (last_found (reason_at (W.reason wanted.now) (session self.now)) (block * 256))
            ≡ last_found (reason_at (W.reason wanted.now) (session self.now)) end) }
        ensures above { IfOk result (λ place.
            IfSome place.reason (λ _. block * 256 < place.position)) }
        ensures inside { IfOk result (λ place. place.position ≤ end) }
        ensures cost { IfOk result (λ place. place.cost + block * 256 ≡ end) }
    {
        let mut machine = self.track.checkpoint(block).copy(alloc)?;
        let mut place = Place {
            position: 0,
            reason: None,
            cost: 0,
        };
        'steps: for position in block * BLOCK..end {
            let choice = self.track.choices[position];
            let reason = wanted.step(&mut machine, choice)?;
            place.cost += 1;
            if reason.is_none() {
                continue;
            }
            place = Place {
                position: position + 1,
                reason,
                cost: place.cost,
            };
        }
        Ok(place)
    }

    // The greatest position from 1 to `below` behind a wanted choice, or 0. It searches one block of
    // choices after the other, the last one first.
    fn place_below<W: Wanted<A>>(
        &self,
        alloc: A,
        wanted: &W,
        below: usize,
    ) -> Result<Place<W::Reason>, AllocError>
        requires { below ≤ length_of (session self.now) }
        ensures found { IfOk result (λ place.
            (place.position, place.reason) ≡ last_of (W.reason wanted.now) (session self.now) below) }
        ensures inside { IfOk result (λ place. place.position ≤ length_of (session self.now)) }
        ensures cost { IfOk result (λ place. place.cost ≡ steps_below below place.position) }
    {
        let mut end = below;
        let mut cost = 0;
        'pieces: while end > 0 {
            let block = (end - 1) / BLOCK;
            let place = self.place_in_block(alloc, wanted, block, end)?;
            cost += place.cost;
            if place.reason.is_some() {
                return Ok(Place {
                    position: place.position,
                    reason: place.reason,
                    cost,
                });
            }
            end = block * BLOCK;
        }
        Ok(Place {
            position: 0,
            reason: None,
            cost,
        })
    }

    /// The greatest position behind a wanted choice among the first `below` choices, or the start.
    /// The debugger does not move.
    pub fn last_below<W: Wanted<A>>(
        &self,
        alloc: A,
        wanted: &W,
        below: usize,
    ) -> Result<Target<A, W::Reason>, AllocError>
        requires { below ≤ length_of (session self.now) }
        ensures found { IfOk result (λ t.
            (t.position, t.reason) ≡ last_of (W.reason wanted.now) (session self.now) below) }
        ensures greatest { IfOk result (λ t. IsGreatestStop (reason_at (W.reason wanted.now) (session self.now))
            below t.position t.reason) }
        ensures world { IfOk result (λ t.
            paged_world t.machine ≡ world_at (session self.now) t.position) }
        ensures inside { IfOk result (λ t. t.position ≤ length_of (session self.now)) }
        ensures cost { IfOk result (λ t.
            t.cost ≡ steps_below below t.position + steps_to t.position) }
    {
        let place = self.place_below(alloc, wanted, below)?;
        let (machine, cost) = self.track.machine_at(alloc, place.position)?;
        Ok(Target {
            machine,
            position: place.position,
            reason: place.reason,
            cost: place.cost + cost,
        })
    }

    /// The greatest earlier position above 0 behind a wanted choice, or the start. The debugger does
    /// not move.
    pub fn earlier<W: Wanted<A>>(
        &self,
        alloc: A,
        wanted: &W,
    ) -> Result<Target<A, W::Reason>, AllocError>
        ensures found { IfOk result (λ t.
            (t.position, t.reason) ≡ earlier_of (W.reason wanted.now) (session self.now)) }
        ensures greatest { IfOk result (λ t. IsGreatestStop (reason_at (W.reason wanted.now) (session self.now))
            ((session self.now).position - 1) t.position t.reason) }
        ensures world { IfOk result (λ t.
            paged_world t.machine ≡ world_at (session self.now) t.position) }
        ensures inside { IfOk result (λ t. t.position ≤ length_of (session self.now)) }
        ensures cost { IfOk result (λ t. t.cost ≡ steps_back (session self.now) t.position) }
    {
        self.last_below(alloc, wanted, self.position.saturating_sub(1))
    }

    /// The least later position with a stop, or the end. The debugger does not move.
    pub fn next_stop(&self, alloc: A) -> Result<Target<A, Stop>, AllocError>
        ensures found { IfOk result (λ t.
            (t.position, t.reason) ≡ next_found (session self.now)) }
        ensures world { IfOk result (λ t.
            paged_world t.machine ≡ world_at (session self.now) t.position) }
        ensures inside { IfOk result (λ t. t.position ≤ length_of (session self.now)) }
        ensures cost { IfOk result (λ t. t.cost ≡ steps_on (session self.now) t.position) }
    {
        self.next(alloc, &self.points)
    }

    /// The greatest earlier position above 0 with a stop, or the start. The debugger does not move.
    pub fn earlier_stop(&self, alloc: A) -> Result<Target<A, Stop>, AllocError>
        ensures found { IfOk result (λ t.
            (t.position, t.reason) ≡ earlier_found (session self.now)) }
        ensures world { IfOk result (λ t.
            paged_world t.machine ≡ world_at (session self.now) t.position) }
        ensures inside { IfOk result (λ t. t.position ≤ length_of (session self.now)) }
        ensures cost { IfOk result (λ t. t.cost ≡ steps_back (session self.now) t.position) }
    {
        self.earlier(alloc, &self.points)
    }

    /// Moves to the result of a search of this debugger at this position. It cannot fail.
    pub fn settle<R: Copy>(&mut self, target: Target<A, R>)
        requires inside { target.position ≤ length_of (session self.old) }
        requires world { paged_world target.machine ≡ world_at (session self.old) target.position }
        ensures moved { session self.new ≡ moved (session self.old) target.position }
        ensures cost { self.new.cost ≡ target.cost }
    {
        self.machine = target.machine;
        self.position = target.position;
        self.cost = target.cost;
    }

    /// Moves forwards to the least later position with a stop, or to the end; returns the stop, or
    /// `None` at the end. A position has a stop if the hart that stepped last is at a breakpoint,
    /// or if a watched word differs from the position before.
    pub fn go_on(&mut self, alloc: A) -> Result<Option<Stop>, AllocError>
        ensures ok { IfOk result (λ stop.
            (session self.new ≡ moved (session self.old) (next_found (session self.old)).0)
            × (stop ≡ (next_found (session self.old)).1)) }
        ensures least { IfOk result (λ stop. IsLeastStop (stop_behind (session self.old))
            (session self.old).position (length_of (session self.old))
            (session self.new).position stop) }
        ensures cost { OnOk result (self.new.cost
            ≡ steps_on (session self.old) (session self.new).position) }
        ensures err { OnErr result ((session self.new ≡ session self.old)
            × (self.new.cost ≡ self.old.cost)) }
    {
        let target = self.next_stop(alloc)?;
        let stop = target.reason;
        self.settle(target);
        Ok(stop)
    }

    /// Moves backwards to the greatest earlier position above 0 with a stop, or to the start;
    /// returns the stop, or `None` at the start.
    pub fn go_back(&mut self, alloc: A) -> Result<Option<Stop>, AllocError>
        ensures ok { IfOk result (λ stop.
            (session self.new ≡ moved (session self.old) (earlier_found (session self.old)).0)
            × (stop ≡ (earlier_found (session self.old)).1)) }
        ensures greatest { IfOk result (λ stop. IsGreatestStop (stop_behind (session self.old))
            ((session self.old).position - 1) (session self.new).position stop) }
        ensures cost { OnOk result (self.new.cost
            ≡ steps_back (session self.old) (session self.new).position) }
        ensures err { OnErr result ((session self.new ≡ session self.old)
            × (self.new.cost ≡ self.old.cost)) }
    {
        let target = self.earlier_stop(alloc)?;
        let stop = target.reason;
        self.settle(target);
        Ok(stop)
    }
}
