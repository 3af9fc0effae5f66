//! Turns: a choice, and the steps that its hart takes at once behind it.
ghost use Rattle.std.specs.Prelude.{◌≡◌, if◌then◌else◌, ◌+◌, ◌<◌, ◌≤◌, IfOk, OnOk, length};
ghost use Rattle.mem_store.specs.Image.{image_memory, segments_memory};
ghost use Rattle.hart_reservations.specs.Marks.{mark_at};
ghost use Rattle.hart_step.specs.Hart.{hart_of};
ghost use Rattle.hart_local.specs.CodeMemory.{code_in};
ghost use Rattle.machine.specs.World.{World, step};
ghost use Rattle.explore_laws.specs.OwnSteps.{steps_in_turn};
ghost use Rattle.explore_laws.specs.Places.{place_after};
ghost use Rattle.explore_search.specs.Searched.{GoesOn};
ghost use Rattle.explore_sites.specs.Cells.{AreCanonical, words_shown};
ghost use Rattle.explore_space.specs.Begun.{hart_settled};
ghost use Rattle.explore_space.specs.Habits.{habits_of, stride_by_habit};
ghost use Rattle.explore_space.specs.Memo.{AreThere, AreTurns};
ghost use Rattle.explore_space.specs.Places.{IsKey, IsKeyOf, KeysStay, KeptOnce, PartsTurn, ShowsHart, Turns, place_of_key};
ghost use Rattle.explore_space.specs.Resting.{at_once, stride_of};

use crate::kept::{KeptHarts, KeptShareds, keep_hart, keep_shared};
use crate::memo::Memo;
use crate::settling::{LocalCode, OWN_AT_ONCE, settle};
use crate::shared::Shared;
use crate::word::{hart_of_word, word_of_hart};
use explore_sites::step_site;
use hart_reservations::MAX_HARTS;
use hart_step::{Hart, HartState};
use image::Image;
use machine::Choice;
use std::alloc::{AllocError, Allocator};

/// The parts behind a turn, by their numbers, and how many steps its hart takes in it.
#[derive(Clone, Copy)]
pub struct Turned {
    /// The hart's number.
    pub hart: u32,
    /// The number of what harts share.
    pub shared: u32,
    /// How many steps these are.
    pub steps: u32,
}

// Takes a hart's step, and the local steps behind it, and returns how many these are.
fn steps_once<A: Allocator + Copy>(
    image: &Image<A>,
    code: &LocalCode<A>,
    hart: &mut Hart,
    shared: &mut Shared<A>,
    choice: Choice,
) -> Result<u32, AllocError>
    requires its_code { segments_memory code.now.code ≡ code_in (image_memory image.now) }
    requires there { choice.hart < 32 }
    ensures world { IfOk result (λ steps. (w : World) → ShowsHart image.now w choice.hart (hart_of hart.old) shared.old
        → ShowsHart image.now (hart_settled code.now.section (step w choice) choice.hart) choice.hart (hart_of hart.new) shared.new) }
    ensures steps { IfOk result (λ steps. (w : World) → ShowsHart image.now w choice.hart (hart_of hart.old) shared.old
        → steps ≡ 1 + stride_of code.now.section (step w choice) choice.hart) }
    ensures few { IfOk result (λ steps. steps ≤ 1 + at_once) }
    ensures canonical { IfOk result (λ _. AreCanonical image.now shared.old.cells.items → AreCanonical image.now shared.new.cells.items) }
{
    step_site(
        image,
        hart,
        choice.hart as usize,
        &mut shared.marks,
        &mut shared.cells,
        choice.refuse,
    )?;
    Ok(1 + settle(hart, code))
}

// Takes a turn: its choice, the local steps behind it, and then, as long as the hart's next step is
// on a word of its own, that one with the local steps behind it. Returns how many steps these are;
// none if the hart has stopped. The only error is out of memory.
fn turn_site<A: Allocator + Copy>(
    image: &Image<A>,
    code: &LocalCode<A>,
    hart: &mut Hart,
    shared: &mut Shared<A>,
    turn: Choice,
) -> Result<u32, AllocError>
    requires its_code { segments_memory code.now.code ≡ code_in (image_memory image.now) }
    requires there { turn.hart < 32 }
    ensures turns { IfOk result (λ steps. Turns (habits_of code.now) image.now turn (hart_of hart.old) (hart_of hart.new)
        (words_shown image.now shared.old.cells.items) (words_shown image.now shared.new.cells.items)
        (mark_at shared.old.marks) (mark_at shared.new.marks) steps) }
    ensures canonical { IfOk result (λ _. AreCanonical image.now shared.old.cells.items → AreCanonical image.now shared.new.cells.items) }
{
    match hart.state {
        HartState::Running => {}
        HartState::Exited(_) | HartState::Faulted(_) => return Ok(0),
    }
    let mut steps = steps_once(image, code, hart, shared, turn)?;
    let plain = Choice {
        hart: turn.hart,
        refuse: false,
    };
    'own: for _ in 0..OWN_AT_ONCE {
        if !code.takes_own(image, hart, turn.hart) {
            return Ok(steps);
        }
        steps += steps_once(image, code, hart, shared, plain)?;
    }
    Ok(steps)
}

// What harts share, once more.
fn copy_of<A: Allocator + Copy>(alloc: A, shared: &Shared<A>) -> Result<Shared<A>, AllocError>
    ensures marks { IfOk result (λ copy. copy.marks ≡ shared.now.marks) }
    ensures cells { IfOk result (λ copy. copy.cells.items ≡ shared.now.cells.items) }
{
    let cells = Vec::from_slice(alloc, &shared.cells)?;
    Ok(Shared {
        marks: shared.marks,
        cells,
    })
}

/// How many steps a turn's hart takes in it where it is this one, and shares this; none if it has
/// stopped. The only error is out of memory.
pub fn steps_from<A: Allocator + Copy>(
    alloc: A,
    image: &Image<A>,
    code: &LocalCode<A>,
    hart: &Hart,
    shared: &Shared<A>,
    turn: Choice,
) -> Result<u32, AllocError>
    requires its_code { segments_memory code.now.code ≡ code_in (image_memory image.now) }
    requires there { turn.hart < 32 }
    ensures { IfOk result (λ steps. (w : World) → ShowsHart image.now w turn.hart (hart_of hart.now) shared.now
        → steps ≡ steps_in_turn (stride_by_habit (habits_of code.now)) w turn.hart turn) }
{
    let mut after = *hart;
    let mut here = copy_of(alloc, shared)?;
    turn_site(image, code, &mut after, &mut here, turn)
}

// The parts after a turn of a hart over what it shares, by their numbers.
fn turn_parts<A: Allocator + Copy>(
    alloc: A,
    image: &Image<A>,
    code: &LocalCode<A>,
    harts: &mut KeptHarts<A>,
    shareds: &mut KeptShareds<A>,
    hart_id: u32,
    shared_id: u32,
    turn: Choice,
) -> Result<Turned, AllocError>
    requires its_code { segments_memory code.now.code ≡ code_in (image_memory image.now) }
    requires hart { hart_id < length harts.old.parts.items }
    requires shared { shared_id < length shareds.old.parts.items }
    ensures there { IfOk result (λ turned. AreThere harts.new.parts.items shareds.new.parts.items turned.hart turned.shared) }
    ensures turns { IfOk result (λ turned. PartsTurn (habits_of code.now) image.now turn harts.old.parts.items shareds.old.parts.items hart_id shared_id
        harts.new.parts.items shareds.new.parts.items turned.hart turned.shared turned.steps) }
    ensures harts_go { GoesOn harts.old.parts.items harts.new.parts.items }
    ensures shareds_go { GoesOn shareds.old.parts.items shareds.new.parts.items }
    ensures once { KeptOnce image.now harts.old.parts.items shareds.old.parts.items
        → KeptOnce image.now harts.new.parts.items shareds.new.parts.items }
{
    if turn.hart as usize >= MAX_HARTS {
        return Err(AllocError);
    }
    let mut hart = harts.parts[hart_id as usize];
    let mut shared = copy_of(alloc, &shareds.parts[shared_id as usize])?;
    let steps = turn_site(image, code, &mut hart, &mut shared, turn)?;
    let new_hart = keep_hart(harts, hart)?;
    let new_shared = keep_shared(shareds, shared)?;
    if new_hart > 0xffff_ffff || new_shared > 0xffff_ffff {
        return Err(AllocError);
    }
    Ok(Turned {
        hart: new_hart as u32,
        shared: new_shared as u32,
        steps,
    })
}

/// Whether a choice refuses, as a word.
pub fn refusal_word(choice: Choice) -> u32
    ensures { result ≡ (if choice.refuse then 1 else 0) }
{
    if choice.refuse { 1 } else { 0 }
}

// The same, which is taken if it isn't kept.
fn known_turn<A: Allocator + Copy>(
    alloc: A,
    image: &Image<A>,
    code: &LocalCode<A>,
    harts: &mut KeptHarts<A>,
    shareds: &mut KeptShareds<A>,
    turns: &mut Memo<A>,
    hart: u32,
    shared: u32,
    turn: Choice,
) -> Result<Turned, AllocError>
    requires its_code { segments_memory code.now.code ≡ code_in (image_memory image.now) }
    requires hart { hart < length harts.old.parts.items }
    requires shared { shared < length shareds.old.parts.items }
    requires kept { AreTurns (habits_of code.now) image.now harts.old.parts.items shareds.old.parts.items turns.old.keys turns.old.answers }
    ensures there { IfOk result (λ turned. AreThere harts.new.parts.items shareds.new.parts.items turned.hart turned.shared) }
    ensures turns { IfOk result (λ turned. PartsTurn (habits_of code.now) image.now turn harts.old.parts.items shareds.old.parts.items hart shared
        harts.new.parts.items shareds.new.parts.items turned.hart turned.shared turned.steps) }
    ensures harts_go { GoesOn harts.old.parts.items harts.new.parts.items }
    ensures shareds_go { GoesOn shareds.old.parts.items shareds.new.parts.items }
    ensures once { KeptOnce image.now harts.old.parts.items shareds.old.parts.items
        → KeptOnce image.now harts.new.parts.items shareds.new.parts.items }
    ensures kept { AreTurns (habits_of code.now) image.now harts.new.parts.items shareds.new.parts.items turns.new.keys turns.new.answers }
{
    let words = [hart, shared, turn.hart, refusal_word(turn)];
    if let Some([new_hart, new_shared, steps]) = turns.find(&words) {
        return Ok(Turned {
            hart: *new_hart,
            shared: *new_shared,
            steps: *steps,
        });
    }
    let turned = turn_parts(alloc, image, code, harts, shareds, hart, shared, turn)?;
    turns.keep(&words, &[turned.hart, turned.shared, turned.steps])?;
    Ok(turned)
}

/// Writes the key of the place that is one turn of a hart further into `next`, whatever stood there.
/// A turn of no hart is refused here.
pub fn turned_key<A: Allocator + Copy>(
    alloc: A,
    image: &Image<A>,
    code: &LocalCode<A>,
    count: usize,
    harts: &mut KeptHarts<A>,
    shareds: &mut KeptShareds<A>,
    turns: &mut Memo<A>,
    key: &[u32],
    turn: Choice,
    next: &mut Vec<u32, A>,
) -> Result<(), AllocError>
    requires its_code { segments_memory code.now.code ≡ code_in (image_memory image.now) }
    requires is { IsKey image.now count harts.old.parts.items shareds.old.parts.items key.now }
    requires kept { AreTurns (habits_of code.now) image.now harts.old.parts.items shareds.old.parts.items turns.old.keys turns.old.answers }
    ensures there { OnOk result (turn.hart < count) }
    ensures key { OnOk result (IsKeyOf (habits_of code.now) image.now count harts.new.parts.items shareds.new.parts.items next.new.items
        (place_after (place_of_key (habits_of code.now) image.now count harts.old.parts.items shareds.old.parts.items key.now) turn)) }
    ensures kept { KeysStay (habits_of code.now) image.now count harts.old.parts.items shareds.old.parts.items
        harts.new.parts.items shareds.new.parts.items }
    ensures known { AreTurns (habits_of code.now) image.now harts.new.parts.items shareds.new.parts.items turns.new.keys turns.new.answers }
{
    let number = turn.hart as usize;
    if number >= count {
        return Err(AllocError);
    }
    let (hart, shared) = (hart_of_word(key[number]), key[count]);
    let turned = known_turn(
        alloc, image, code, harts, shareds, turns, hart, shared, turn,
    )?;
    let word = word_of_hart(turned.hart as usize, true)?;
    next.clear();
    next.extend_from_slice(key)?;
    next[number] = word;
    next[count] = turned.shared;
    Ok(())
}
