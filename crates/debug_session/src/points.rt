//! Breakpoints and watches.
ghost use Rattle.std.specs.Prelude.{◌≡◌, ◌<◌, ◌%◌, [], IfSome, if◌then◌else◌, ◌==◌, None, length, slice_get};
ghost use Rattle.debug_session.specs.Paged.{paged_world};
ghost use Rattle.debug_session.specs.Points.{watched_words, no_words};
ghost use Rattle.debug_session.specs.Stops.{break_of, stop_at};
ghost use Rattle.debug_session.specs.Words.{word_if};

use crate::access::accessed;
use crate::paged_machine::PagedMachine;
use crate::stop::{AtBreak, Stop, stop_for};
use crate::touching::{if_place, if_runs};
use crate::wanted::Wanted;
use crate::watches::Watches;
use crate::words::word_at;
use machine::Choice;
use std::alloc::{AllocError, Allocator};
use std::collections::BTreeSet;

/// Breakpoints, and the words that are watched.
#[derive(Drop)]
pub struct Points<A: Allocator + Copy> {
    pub(crate) breaks: BTreeSet<u32, A>,
    pub(crate) watches: Watches<A>,
}

impl<A: Allocator + Copy> Points<A> {
    /// None of both.
    pub(crate) fn new(alloc: A) -> Points<A>
        ensures { (result.breaks.keys ≡ []) × (watched_words result.watches ≡ no_words) }
    {
        Points {
            breaks: BTreeSet::new(alloc),
            watches: Watches::new(alloc),
        }
    }

    // The breakpoint at which a hart is, if it is at one.
    fn break_of(&self, machine: &PagedMachine<A>, hart: u32) -> Option<AtBreak>
        requires { hart < length (paged_world machine.now).harts }
        ensures { result ≡ break_of self.now.breaks.keys hart
            (slice_get (paged_world machine.now).harts hart) }
    {
        let pc = machine.hart(hart as usize).pc;
        if self.breaks.contains(&pc) {
            Some(AtBreak { hart, address: pc })
        } else {
            None
        }
    }
}

// The word at an address, or 0 if there is no address.
fn word_if<A: Allocator + Copy>(machine: &PagedMachine<A>, address: Option<u32>) -> u32
    requires { IfSome address (λ a. a % 4 ≡ 0) }
    ensures { result ≡ word_if (paged_world machine.now).memory address }
{
    match address {
        Some(address) => word_at(machine.store(), address),
        None => 0,
    }
}

// A word if it is no longer as it was.
fn if_changed<A: Allocator + Copy>(
    machine: &PagedMachine<A>,
    word: Option<u32>,
    before: u32,
) -> Option<u32>
    requires { IfSome word (λ a. a % 4 ≡ 0) }
    ensures { result
        ≡ (if word_if (paged_world machine.now).memory word == before then None else word) }
{
    if word_if(machine, word) == before {
        None
    } else {
        word
    }
}

impl<A: Allocator + Copy> Wanted<A> for Points<A> {
    type Reason = Stop;

    ghost reason = { λ p. stop_at p.breaks.keys (watched_words p.watches) };

    // A word that is watched for changes is compared only if the step accesses it: no other word
    // can change.
    fn step(
        &self,
        machine: &mut PagedMachine<A>,
        choice: Choice,
    ) -> Result<Option<Stop>, AllocError> {
        let access = accessed(machine, choice.hart);
        let placed = if_place(machine, choice, access);
        let word = self.watches.may_change(access);
        let before = word_if(machine, word);
        machine.step(choice)?;
        let changed = if_changed(machine, word, before);
        let made = if_runs(machine, choice.hart, placed);
        let hit = self.watches.hit(changed, made);
        Ok(stop_for(self.break_of(machine, choice.hart), hit))
    }
}
