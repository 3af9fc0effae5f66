//! The bounds on harts' own steps.
ghost use Rattle.std.specs.Prelude.{◌≡◌, ℕ, ◌%◌, ◌<◌, IfOk, length};
ghost use Rattle.std.specs.List.{Contains};
ghost use Rattle.machine.specs.Start.{started};
ghost use Rattle.mem_store.specs.Image.{image_memory, segments_memory};
ghost use Rattle.hart_local.specs.CodeMemory.{code_in};
ghost use Rattle.explore_laws.specs.OwnSteps.{HasPlainChoices, KeysAreClear};
ghost use Rattle.explore_search.specs.Answers.{AreAllReached};
ghost use Rattle.explore_search.specs.Edges.{HaveEdges};
ghost use Rattle.explore_search.specs.Marked.{AreAllSeen};
ghost use Rattle.explore_space.specs.Begun.{turns_start};
ghost use Rattle.explore_space.specs.Habits.{clear_by_habit, habits_of};
ghost use Rattle.explore_space.specs.Bounds.{AnswersBounds, AreBounds, MayAllStep, later_by};
ghost use Rattle.explore_space.specs.Places.{IsKey, place_of_key};
ghost use Rattle.explore_space.specs.declared.own_bounds.OwnBounds.TheVariants.{Asked};

use crate::beginning::begun_steps;
use crate::explorer::Explorer;
use crate::own_steps::steps_of_turns;
use crate::settling::LocalCode;
use explore_bounds::{Bound, own_bound};
use explore_search::Seen;
use image::Image;
use machine::{Choice, Inputs};
use std::alloc::{AllocError, Allocator};

/// Whether the bounds on harts' own steps are asked for.
#[derive(Clone, Copy, PartialEq, Eq)]
pub enum OwnBounds {
    /// They are: for each place it is kept where turns lead, 4 bytes for each turn, and how many
    /// steps these take, 4 more.
    Asked,
    /// They aren't.
    NotAsked,
}

// The bound where so many steps come before those that it counts.
fn bound_later(bound: Bound, steps: u32) -> Result<Bound, AllocError>
    ensures { IfOk result (λ later. later ≡ later_by bound steps) }
{
    match bound {
        Bound::After(count) => match count.checked_add(u64::from(steps)) {
            Some(all) => Ok(Bound::After(all)),
            None => Err(AllocError),
        },
        Bound::Never => Ok(Bound::Never),
    }
}

// The bound on the own steps of each hart.
fn bounds_of<A: Allocator + Copy>(
    alloc: A,
    image: &Image<A>,
    code: &LocalCode<A>,
    inputs: &Inputs,
    explorer: &Explorer<A>,
    meant: &[Choice],
    seen: &Seen<A>,
) -> Result<Vec<Bound, A>, AllocError>
    requires first { turns_start (habits_of explorer.now.known.code.now) (started explorer.now.known.image.now explorer.now.inputs.now)
        ≡ turns_start (habits_of code.now) (started image.now inputs.now) }
    requires its_code { segments_memory code.now.code ≡ code_in (image_memory image.now) }
    requires entry { image.now.entry % 4 ≡ 0 }
    requires seen { AreAllSeen (IsKey explorer.now.known.image.now (length explorer.now.inputs.now) explorer.now.known.harts.parts.items
        explorer.now.known.shareds.parts.items)
        (place_of_key (habits_of explorer.now.known.code.now) explorer.now.known.image.now (length explorer.now.inputs.now) explorer.now.known.harts.parts.items
        explorer.now.known.shareds.parts.items)
        (turns_start (habits_of explorer.now.known.code.now) (started explorer.now.known.image.now explorer.now.inputs.now)) meant.now seen.now.keys seen.now.links.items }
    requires reaches { AreAllReached (IsKey explorer.now.known.image.now (length explorer.now.inputs.now) explorer.now.known.harts.parts.items
        explorer.now.known.shareds.parts.items)
        (place_of_key (habits_of explorer.now.known.code.now) explorer.now.known.image.now (length explorer.now.inputs.now) explorer.now.known.harts.parts.items
        explorer.now.known.shareds.parts.items) meant.now
        (turns_start (habits_of explorer.now.known.code.now) (started explorer.now.known.image.now explorer.now.inputs.now)) seen.now.keys }
    requires edges { HaveEdges (place_of_key (habits_of explorer.now.known.code.now) explorer.now.known.image.now (length explorer.now.inputs.now)
        explorer.now.known.harts.parts.items explorer.now.known.shareds.parts.items) meant.now seen.now.keys seen.now.rows }
    requires meant { MayAllStep meant.now (length inputs.now) }
    requires clear { KeysAreClear (clear_by_habit (habits_of code.now)) meant.now (place_of_key (habits_of explorer.now.known.code.now) explorer.now.known.image.now
        (length explorer.now.inputs.now) explorer.now.known.harts.parts.items explorer.now.known.shareds.parts.items) seen.now.keys }
    ensures { IfOk result (λ bounds. AreBounds meant.now (started image.now inputs.now) (length inputs.now) bounds.items) }
{
    let steps = steps_of_turns(alloc, explorer, meant, &seen.keys)?;
    let begun = begun_steps(alloc, image, code, inputs)?;
    let mut bounds = Vec::new(alloc);
    'harts: for hart in 0..inputs.harts() {
        let bound = own_bound(alloc, meant, &seen.rows, &steps, hart)?;
        let later = bound_later(bound, begun[hart as usize])?;
        bounds.push(later)?;
    }
    Ok(bounds)
}

/// The bound on the own steps of each hart, if they are asked for, by a search that kept edges;
/// else none. The only error is out of memory; 2^64 - 1 steps and more are answered so too.
pub fn asked_bounds<A: Allocator + Copy>(
    alloc: A,
    image: &Image<A>,
    code: &LocalCode<A>,
    inputs: &Inputs,
    explorer: &Explorer<A>,
    meant: &[Choice],
    seen: &Seen<A>,
    asked: OwnBounds,
) -> Result<Vec<Bound, A>, AllocError>
    requires first { turns_start (habits_of explorer.now.known.code.now) (started explorer.now.known.image.now explorer.now.inputs.now)
        ≡ turns_start (habits_of code.now) (started image.now inputs.now) }
    requires its_code { segments_memory code.now.code ≡ code_in (image_memory image.now) }
    requires entry { image.now.entry % 4 ≡ 0 }
    requires seen { AreAllSeen (IsKey explorer.now.known.image.now (length explorer.now.inputs.now) explorer.now.known.harts.parts.items
        explorer.now.known.shareds.parts.items)
        (place_of_key (habits_of explorer.now.known.code.now) explorer.now.known.image.now (length explorer.now.inputs.now) explorer.now.known.harts.parts.items
        explorer.now.known.shareds.parts.items)
        (turns_start (habits_of explorer.now.known.code.now) (started explorer.now.known.image.now explorer.now.inputs.now)) meant.now seen.now.keys seen.now.links.items }
    requires reaches { AreAllReached (IsKey explorer.now.known.image.now (length explorer.now.inputs.now) explorer.now.known.harts.parts.items
        explorer.now.known.shareds.parts.items)
        (place_of_key (habits_of explorer.now.known.code.now) explorer.now.known.image.now (length explorer.now.inputs.now) explorer.now.known.harts.parts.items
        explorer.now.known.shareds.parts.items) meant.now
        (turns_start (habits_of explorer.now.known.code.now) (started explorer.now.known.image.now explorer.now.inputs.now)) seen.now.keys }
    requires edges { asked ≡ Asked → HaveEdges (place_of_key (habits_of explorer.now.known.code.now) explorer.now.known.image.now (length explorer.now.inputs.now)
        explorer.now.known.harts.parts.items explorer.now.known.shareds.parts.items) meant.now seen.now.keys seen.now.rows }
    requires meant { MayAllStep meant.now (length inputs.now) }
    requires clear { KeysAreClear (clear_by_habit (habits_of code.now)) meant.now (place_of_key (habits_of explorer.now.known.code.now) explorer.now.known.image.now
        (length explorer.now.inputs.now) explorer.now.known.harts.parts.items explorer.now.known.shareds.parts.items) seen.now.keys }
    ensures { IfOk result (λ bounds. AnswersBounds asked meant.now (started image.now inputs.now) (length inputs.now) bounds.items) }
{
    match asked {
        OwnBounds::Asked => bounds_of(alloc, image, code, inputs, explorer, meant, seen),
        OwnBounds::NotAsked => Ok(Vec::new(alloc)),
    }
}
