//! A hart's log.
ghost use Rattle.std.specs.Prelude.{◌≡◌, ◌<◌, ◌≤◌, Some, length, [], MatchOption, IfOk, IfErr, IfSome, OnErr, OnOk};
ghost use Rattle.hart_reservations.specs.Limit.{most_harts};
ghost use Rattle.hart_step.specs.Hart.{hart_of};
ghost use Rattle.mem_store.specs.Image.{image_memory, segments_memory};
ghost use Rattle.hart_local.specs.CodeMemory.{code_in};
ghost use Rattle.hart_local.specs.LocalStep.{class_of, walk};
ghost use Rattle.hart_local.specs.declared.stepping.Class.TheVariants.{Shared};
ghost use Rattle.bank_laws.specs.HartLogs.{local_hart, segment_slot};
ghost use Rattle.bank_hart_log.specs.HartLog.{image_table, last_segment_stamp, logged_slot, with_segment, with_access, FitsLog, IsAhead, IsAheadTouch, IsOfHart, RefusesSegment, StepsAreLocal, TouchesNext};
ghost use Rattle.bank_hart_log.specs.declared.log.AddFault.{AddFault};
ghost use Rattle.bank_hart_log.specs.LastStep.{SlotIf};

use crate::first::first_hart;
use crate::step::{Found, Slot, TouchedWord, last_step, touch_word, walked};
use bank_laws::LoggedAccess;
use bank_order::LogSegment;
use bank_step::{CodeTouch, InstrTable};
use hart_local::{Code, local_steps};
use hart_step::Hart;
use image::Image;
use std::alloc::Allocator;
use std::marker::Model;

/// Why a segment is not logged. Nothing has changed then.
#[derive(Clone, Copy, Drop, PartialEq, Eq)]
pub enum AddFault {
    /// The segment is of another hart, one of the steps that it counts is not local, or its
    /// accesses are not those of its last step.
    Mismatch,
    /// The host refused memory.
    Memory,
}

/// A hart some local steps ahead of its log.
#[derive(Clone, Copy)]
pub struct Ahead {
    /// Number of local steps.
    pub local: u32,
    /// The hart after them.
    pub hart: Hart,
}

/// Some local steps ahead of a hart's log, and the word that the step after them touches.
#[derive(Clone, Copy)]
pub struct AheadTouch {
    /// Number of local steps.
    pub local: u32,
    /// The touch of the next step.
    pub touch: CodeTouch,
}

/// The log of one hart of a program, segment by segment, and the hart's state after it. It says
/// nothing about the order of stamps.
#[derive(Drop)]
pub struct HartLog<'a, A: Allocator> {
    image: &'a Image<A>,
    inputs: &'a [u32],
    number: u32,
    hart: Hart,
    named: Option<u32>,
    segments: Vec<LogSegment, A>,
    // Number of local steps walked ahead, and the hart after them.
    walked: u32,
    reached: Hart,
}

impl<'a, A: Allocator> Model for HartLog<'a, A> {
    ghost use Rattle.bank_hart_log.specs.HartLog.{HartLogValue, HartLogHolds};

    ghost Value = { HartLogValue };

    ghost view = { λ l. record {
      image = l.image.now;
      inputs = l.inputs.now;
      hart = l.number;
      log = l.segments.items;
    } };

    ghost invariant = { λ l. HartLogHolds l.image.now l.inputs.now l.number l.segments.items l.hart l.named l.walked l.reached };
}

// Goes on with local steps, where `ahead` of them have led from a hart to `reached`, until the next
// one isn't local or there are `limit` of them; returns their number. Only if more were done, it
// begins anew.
#[inline]
#[tactic(auto, using(hart_local::proofs::StepLemmas::walks_join))]
fn walk_on<A: Allocator>(
    hart: &Hart,
    ahead: u32,
    reached: &mut Hart,
    code: &Code<A>,
    limit: u32,
) -> u32
    ensures goes { walk (segments_memory code.now) ahead (hart_of hart.now) ≡ Some (hart_of reached.old)
        → walk (segments_memory code.now) result (hart_of hart.now) ≡ Some (hart_of reached.new) }
    ensures limit { result ≤ limit }
    ensures stops { result < limit
        → class_of (segments_memory code.now) (hart_of reached.new) ≡ Shared }
{
    if limit < ahead {
        *reached = *hart;
        return local_steps(reached, code, limit);
    }
    ahead + local_steps(reached, code, limit - ahead)
}

// Brings `reached`, which is `ahead` local steps ahead of a hart, to where `count` of them lead.
#[inline]
fn reach<A: Allocator>(image: &Image<A>, hart: &Hart, ahead: u32, reached: &mut Hart, count: u32)
    requires local { StepsAreLocal image.now count (hart_of hart.now) }
    requires reached { hart_of reached.old ≡ local_hart (image_table image.now) ahead (hart_of hart.now) }
    ensures { hart_of reached.new ≡ local_hart (image_table image.now) count (hart_of hart.now) }
{
    if count == ahead {
        return;
    }
    let Some(there) = walked(image, hart, count) else {
        unreachable!();
    };
    *reached = there;
}

impl<'a, A: Allocator> HartLog<'a, A> {
    /// The log of a hart as its program begins. There is one hart for each input.
    pub fn new(alloc: A, image: &'a Image<A>, inputs: &'a [u32], number: u32) -> HartLog<'a, A>
        requires harts { length inputs.now ≤ most_harts }
        requires there { number < length inputs.now }
        ensures { result ≡ record {
          image = image.now;
          inputs = inputs.now;
          hart = number;
          log = [];
        } }
    {
        let input = inputs[number as usize];
        let hart = first_hart(image.entry(), number, input, inputs.len() as u32);
        HartLog {
            image,
            inputs,
            number,
            hart,
            named: None,
            segments: Vec::new(alloc),
            walked: 0,
            reached: hart,
        }
    }

    // The hart after `count` steps, if they are local.
    fn after_local(&self, count: u32) -> Option<Hart>
        ensures { let m = self.now.image in let h = (logged_slot self.now).hart in
            MatchOption result (StepsAreLocal m count h → ⊥)
            (λ reached. StepsAreLocal m count h × (hart_of reached ≡ local_hart (image_table m) count h)) }
    {
        if count == self.walked {
            return Some(self.reached);
        }
        walked(self.image, &self.hart, count)
    }

    /// Does local steps ahead of the log, over the image's code, until the next one isn't local or
    /// `limit` have been done. If the next segment has that number of local steps, `add` doesn't do
    /// them again.
    pub fn walk_ahead(&mut self, code: &Code<A>, limit: u32) -> Ahead
        requires { segments_memory code.now ≡ code_in (image_memory self.old.image) }
        ensures same { self.new ≡ self.old }
        ensures ahead { IsAhead self.old result }
        ensures limit { result.local ≤ limit }
        ensures stops { result.local < limit
            → class_of (segments_memory code.now) (hart_of result.hart) ≡ Shared }
    {
        let local = walk_on(&self.hart, self.walked, &mut self.reached, code, limit);
        self.walked = local;
        Ahead {
            local,
            hart: self.reached,
        }
    }

    /// Does local steps ahead of the log as `walk_ahead` does. Returns their number, with the word
    /// that the next step touches, if the table has its instruction and it touches a word. On
    /// `None` the caller looks at what `walk_ahead` gives; no step is done again for that.
    pub fn walk_to_touch(
        &mut self,
        code: &Code<A>,
        instrs: &InstrTable<A>,
        limit: u32,
    ) -> Option<AheadTouch>
        requires code { segments_memory code.now ≡ code_in (image_memory self.old.image) }
        requires instrs { instrs.now ≡ self.old.image }
        ensures same { self.new ≡ self.old }
        ensures next { IfSome result (λ a. IsAheadTouch self.old a) }
        ensures limit { IfSome result (λ a. a.local ≤ limit) }
    {
        let local = walk_on(&self.hart, self.walked, &mut self.reached, code, limit);
        self.walked = local;
        let Some(touch) = instrs.touch_of(&self.reached) else {
            return None;
        };
        Some(AheadTouch { local, touch })
    }

    // The slot after a segment, if it may come next.
    fn slot_after(&self, segment: &LogSegment) -> Option<Slot>
        ensures { SlotIf (FitsLog self.now segment.now)
            (segment_slot (image_table self.now.image) segment.now (logged_slot self.now)) result }
    {
        if segment.hart != self.number {
            return None;
        }
        let hart = match self.after_local(segment.local) {
            None => return None,
            Some(hart) => hart,
        };
        let slot = Slot {
            hart,
            named: self.named,
        };
        last_step(self.image, &slot, segment)
    }

    /// Logs a segment, and moves the hart on by its steps.
    pub fn add(&mut self, segment: LogSegment) -> Result<(), AddFault>
        ensures ok { OnOk result (FitsLog self.old segment × (self.new ≡ with_segment self.old segment)) }
        ensures fault { IfErr result (λ fault. RefusesSegment self.old segment fault) }
        ensures err { OnErr result (self.new ≡ self.old) }
    {
        let slot = match self.slot_after(&segment) {
            None => return Err(AddFault::Mismatch),
            Some(slot) => slot,
        };
        let Ok(_) = self.segments.push(segment) else {
            return Err(AddFault::Memory);
        };
        self.hart = slot.hart;
        self.named = slot.named;
        self.walked = 0;
        self.reached = slot.hart;
        Ok(())
    }

    /// Logs a segment whose last step is of code and touches a word, given the word's bytes and
    /// mark; returns the access. The segment is passed without accesses. What the caller knows
    /// isn't checked again.
    pub fn add_touch(
        &mut self,
        segment: LogSegment,
        touch: CodeTouch,
        found: Found,
    ) -> Result<LoggedAccess, AddFault>
        requires { TouchesNext self.old segment touch }
        ensures ok { IfOk result (λ access. FitsLog self.old (with_access segment access)
            × (self.new ≡ with_segment self.old (with_access segment access))) }
        ensures touches { IfOk result (λ access. (access.hart ≡ segment.hart) × (access.word ≡ touch.touch.word)) }
        ensures finds { IfOk result (λ access. (access.before ≡ found.bytes) × (access.mark ≡ found.mark)) }
        ensures fault { IfErr result (λ fault. fault ≡ AddFault.Memory) }
        ensures err { OnErr result (self.new ≡ self.old) }
    {
        reach(
            self.image,
            &self.hart,
            self.walked,
            &mut self.reached,
            segment.local,
        );
        let TouchedWord { access, named } = touch_word(
            self.image,
            &mut self.reached,
            self.named,
            &segment,
            None,
            touch.touch,
            touch.instr,
            found,
        );
        let Ok(_) = self.segments.push(with_access(segment, access)) else {
            self.walked = 0;
            self.reached = self.hart;
            return Err(AddFault::Memory);
        };
        self.hart = self.reached;
        self.named = named;
        self.walked = 0;
        Ok(access)
    }

    /// The hart's number, from 0.
    pub fn number(&self) -> u32
        ensures { result ≡ self.now.hart }
    {
        self.number
    }

    /// The program's image.
    pub fn image(&self) -> &Image<A>
        ensures { result.now ≡ self.now.image }
    {
        self.image
    }

    /// The harts' inputs.
    pub fn inputs(&self) -> &[u32]
        ensures { result.now ≡ self.now.inputs }
    {
        self.inputs
    }

    /// The hart's state after the log.
    pub fn slot(&self) -> &Hart
        ensures { hart_of result.now ≡ (logged_slot self.now).hart }
    {
        &self.hart
    }

    /// The word that the hart's last LR without a fault named, if no store-conditional without a
    /// fault came after it.
    pub fn named(&self) -> Option<u32>
        ensures { result ≡ (logged_slot self.now).named }
    {
        self.named
    }

    /// The segments so far.
    pub fn segments(&self) -> &[LogSegment]
        ensures { result.now ≡ self.now.log }
    {
        &self.segments
    }

    /// The stamp of the last segment, 0 before the first.
    pub fn last_stamp(&self) -> u64
        ensures { result ≡ last_segment_stamp self.now.log }
    {
        match self.segments.last() {
            Some(segment) => segment.stamp,
            None => 0,
        }
    }
}

// A segment with this data access and no other.
fn with_access(segment: LogSegment, access: LoggedAccess) -> LogSegment
    ensures { result ≡ with_access segment access }
{
    LogSegment {
        stamp: segment.stamp,
        hart: segment.hart,
        local: segment.local,
        refuse: segment.refuse,
        code_read: None,
        data_access: Some(access),
    }
}

/// The segments of every hart log are that hart's own, and a walk from its start to the state and
/// the word that the log stores.
pub fn each_hart_log_is_walked<A: Allocator>(log: &HartLog<A>)
    ensures { IsOfHart log.now }
{
    // Reading a field gives the proof the invariant.
    let _ = &log.segments;
}
