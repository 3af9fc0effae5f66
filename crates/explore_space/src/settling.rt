//! Steps taken at once.
ghost use Rattle.std.specs.Prelude.{◌≡◌, ◌≤◌, ◌&&◌, not, if◌then◌else◌, IfOk, None, Some};
ghost use Rattle.std.specs.Prelude.{ℕ, Some, slice_get};
ghost use Rattle.mem_store.specs.Image.{image_memory, segments_memory};
ghost use Rattle.hart_step.specs.Hart.{hart_of};
ghost use Rattle.hart_local.specs.CodeMemory.{code_in};
ghost use Rattle.hart_local.specs.LocalStep.{step_alone};
ghost use Rattle.explore_laws.specs.Bounds.{not_stopped};
ghost use Rattle.explore_space.specs.Resting.{at_once, may_walk, rested, rest_steps, rests_in};
ghost use Rattle.hart_step.specs.Laws.{Keeps};
ghost use Rattle.machine.specs.World.{World};
ghost use Rattle.explore_space.specs.Begun.{runs_outside};
ghost use Rattle.explore_space.specs.Failing.{strays_by};
ghost use Rattle.bank_step.specs.Told.{as_touch};
ghost use Rattle.bank_laws.specs.Carried.{act_of};
ghost use Rattle.explore_sites.specs.Own.{Owners, is_own_touch, is_store_conditional, may_store, only_loads};
ghost use Rattle.explore_space.specs.Habits.{habits_of, owners_in, takes_own_step};

use crate::own_words::{OwnWord, owner_of};
use crate::section::Section;
use bank_step::{PlannedTouch, is_unwritable};
use explore_sites::{NextTouch, next_touch};
use hart_local::{Class, Code, classify, local_step, local_steps};
use hart_step::{AccessKind, Hart, HartState};
use image::Image;
use property_judge::is_within;
use std::alloc::{AllocError, Allocator};

// How many local steps are taken at once at most.
const AT_ONCE: u32 = 1024;

/// How many steps on its own words a hart takes at once at most.
pub const OWN_AT_ONCE: u32 = 64;

/// Code, the section of it in which no step is taken at once, if there is one, and whose words are.
#[derive(Drop)]
pub struct LocalCode<A: Allocator> {
    /// The code.
    pub code: Code<A>,
    /// The section.
    pub section: Option<Section>,
    /// Words that belong to one hart each.
    pub words: Vec<OwnWord, A>,
}

impl<A: Allocator> LocalCode<A> {
    /// The code of an image. Fails when out of memory.
    pub fn new<B: Allocator>(
        alloc: A,
        image: &Image<B>,
        section: Option<Section>,
        words: Vec<OwnWord, A>,
    ) -> Result<LocalCode<A>, AllocError>
    where
        A: Copy,
        ensures memory { IfOk result (λ local. segments_memory local.code ≡ code_in (image_memory image.now)) }
        ensures section { IfOk result (λ local. local.section ≡ section) }
        ensures words { IfOk result (λ local. local.words.items ≡ words.items) }
    {
        let code = Code::new(alloc, image)?;
        Ok(LocalCode {
            code,
            section,
            words,
        })
    }

    /// Whether the hart with this number, if it is this one, touches a word in its next step that no
    /// other hart sees it touch: one of its own, or one that can't be written, which it loads.
    pub fn takes_own<B: Allocator>(&self, image: &Image<B>, hart: &Hart, number: u32) -> bool
        ensures { (w : World) → slice_get w.harts number ≡ Some (hart_of hart.now) → Keeps (image_memory image.now) w.memory
            → result ≡ takes_own_step (habits_of self.now) w number }
    {
        if !runs_outside(hart, self.section) {
            return false;
        }
        match next_touch(hart, image) {
            NextTouch::Unknown | NextTouch::Nothing => false,
            NextTouch::Word(touch) => {
                let owner = owner_of(&self.words, touch.word);
                is_own(image, touch, owner, number)
            }
        }
    }

    /// Whether the hart with this number may stray into another's words, if it is this one.
    pub fn strays<B: Allocator>(&self, image: &Image<B>, hart: &Hart, number: u32) -> bool
        ensures { (w : World) → slice_get w.harts number ≡ Some (hart_of hart.now) → Keeps (image_memory image.now) w.memory
            → result ≡ strays_by (owners_in self.now.words.items) w number (slice_get w.harts number) }
    {
        match next_touch(hart, image) {
            NextTouch::Unknown => true,
            NextTouch::Nothing => false,
            NextTouch::Word(touch) => match owner_of(&self.words, touch.word) {
                Some(owner) => owner != number,
                None => false,
            },
        }
    }
}

// Whether a hart's touch of a word with this owner is one that no other hart sees. A
// store-conditional's isn't, since a refusal changes it, nor is a store into a word that can't be
// written, which faults.
fn is_own<A: Allocator>(
    image: &Image<A>,
    touch: PlannedTouch,
    owner: Option<u32>,
    number: u32,
) -> bool
    ensures { (owners : Owners) → owner ≡ owners (as_touch touch).word
        → result ≡ is_own_touch owners (image_memory image.now) number (as_touch touch) }
{
    let is_fixed = is_unwritable(image.segments(), touch.word);
    match owner {
        Some(owner) => owner == number && can_wait(touch.kind, is_fixed),
        None => is_fixed && only_loads(touch.kind),
    }
}

// Whether a hart's access to its own word can wait, where the word can't be written or may be.
fn can_wait(kind: AccessKind, is_fixed: bool) -> bool
    ensures { result ≡ (not (may_store (act_of kind) && is_fixed) && not (is_store_conditional (act_of kind))) }
{
    match kind {
        AccessKind::Load | AccessKind::LoadReserved => true,
        AccessKind::Store | AccessKind::Amo => !is_fixed,
        AccessKind::StoreConditional => false,
    }
}

// Whether an access only loads.
fn only_loads(kind: AccessKind) -> bool
    ensures { result ≡ only_loads (act_of kind) }
{
    match kind {
        AccessKind::Load => true,
        AccessKind::Store
        | AccessKind::Amo
        | AccessKind::LoadReserved
        | AccessKind::StoreConditional => false,
    }
}

// Takes a hart's local steps, wherever it stands, and returns how many.
fn steps_anywhere<A: Allocator>(hart: &mut Hart, code: &Code<A>) -> u32
    ensures hart { hart_of hart.new ≡ rested None (segments_memory code.now) at_once (hart_of hart.old) }
    ensures steps { result ≡ rest_steps None (segments_memory code.now) at_once (hart_of hart.old) }
    ensures few { result ≤ at_once }
{
    local_steps(hart, code, AT_ONCE)
}

// Takes a hart's next local step, if it has one and doesn't stand in a section: whether that is so.
fn step_outside<A: Allocator>(hart: &mut Hart, code: &Code<A>, section: Section) -> bool
    ensures steps { result ≡ may_walk (Some section) (segments_memory code.now) (hart_of hart.old) }
    ensures hart { hart_of hart.new
        ≡ (if result then step_alone (segments_memory code.now) (hart_of hart.old) else hart_of hart.old) }
{
    if is_within(hart, section.from, section.to) {
        return false;
    }
    match classify(hart, code) {
        Class::Shared => false,
        Class::Local => {
            local_step(hart, code);
            true
        }
    }
}

// Takes a hart's local steps, but for those in a section, and returns how many.
fn steps_outside<A: Allocator>(hart: &mut Hart, code: &Code<A>, section: Section) -> u32
    ensures hart { hart_of hart.new ≡ rested (Some section) (segments_memory code.now) at_once (hart_of hart.old) }
    ensures steps { result ≡ rest_steps (Some section) (segments_memory code.now) at_once (hart_of hart.old) }
    ensures few { result ≤ at_once }
{
    'steps: for done in 0..AT_ONCE {
        if !step_outside(hart, code, section) {
            return done;
        }
    }
    AT_ONCE
}

/// Takes a hart's local steps, and returns how many.
pub fn settle<A: Allocator>(hart: &mut Hart, code: &LocalCode<A>) -> u32
    ensures hart { hart_of hart.new ≡ rested code.now.section (segments_memory code.now.code) at_once (hart_of hart.old) }
    ensures steps { result ≡ rest_steps code.now.section (segments_memory code.now.code) at_once (hart_of hart.old) }
    ensures few { result ≤ at_once }
{
    match code.section {
        None => steps_anywhere(hart, &code.code),
        Some(section) => steps_outside(hart, &code.code, section),
    }
}

/// Whether a hart runs.
pub fn is_running(hart: &Hart) -> bool
    ensures { result ≡ not_stopped (hart_of hart.now).state }
{
    match hart.state {
        HartState::Running => true,
        HartState::Exited(_) | HartState::Faulted(_) => false,
    }
}

// Whether a hart stands in a section, if there is one, and runs.
fn rests_in(hart: &Hart, section: Option<Section>) -> bool
    ensures { result ≡ rests_in section (hart_of hart.now) }
{
    match section {
        None => false,
        Some(section) => is_within(hart, section.from, section.to),
    }
}

/// Whether a hart runs and doesn't stand in a section.
pub fn runs_outside(hart: &Hart, section: Option<Section>) -> bool
    ensures { result ≡ runs_outside section (hart_of hart.now) }
{
    is_running(hart) && !rests_in(hart, section)
}
