//! The steps of turns, in rows.
ghost use Rattle.std.specs.Prelude.{◌≡◌, ℕ, List, Some, IfOk, OnOk, length, slice_get};
ghost use Rattle.explore_bounds.specs.Steps.{AreStepsFrom, HaveSteps};
ghost use Rattle.explore_space.specs.Habits.{habits_of};
ghost use Rattle.explore_space.specs.Places.{IsKey, place_of_key};

use crate::explorer::Explorer;
use explore_table::{Rows, Table};
use machine::Choice;
use std::alloc::{AllocError, Allocator};

// Makes the row of a key: how many steps the hart of each turn takes in it.
fn take_row<A: Allocator + Copy>(
    explorer: &Explorer<A>,
    turns: &[Choice],
    key: &[u32],
    row: &mut Vec<u32, A>,
) -> Result<(), AllocError>
    requires { IsKey explorer.now.known.image.now (length explorer.now.inputs.now) explorer.now.known.harts.parts.items
        explorer.now.known.shareds.parts.items key.now }
    ensures { OnOk result (AreStepsFrom turns.now (place_of_key (habits_of explorer.now.known.code.now) explorer.now.known.image.now (length explorer.now.inputs.now)
        explorer.now.known.harts.parts.items explorer.now.known.shareds.parts.items key.now) row.new.items) }
{
    row.clear();
    'turns: for turn in turns {
        row.push(explorer.steps_in(key, *turn)?)?;
    }
    Ok(())
}

/// How many steps the hart of each turn takes in it from each key's place: a row for each key. The
/// only error is out of memory.
pub fn steps_of_turns<A: Allocator + Copy>(
    alloc: A,
    explorer: &Explorer<A>,
    turns: &[Choice],
    keys: &Table<A>,
) -> Result<Rows<A>, AllocError>
    requires { (k : ℕ) (key : List ℕ) → slice_get keys.now k ≡ Some key
        → IsKey explorer.now.known.image.now (length explorer.now.inputs.now) explorer.now.known.harts.parts.items
        explorer.now.known.shareds.parts.items key }
    ensures { IfOk result (λ steps. HaveSteps (place_of_key (habits_of explorer.now.known.code.now) explorer.now.known.image.now (length explorer.now.inputs.now)
        explorer.now.known.harts.parts.items explorer.now.known.shareds.parts.items) turns.now keys.now steps) }
{
    let mut steps = Rows::new(alloc);
    let mut row = Vec::new(alloc);
    'keys: for number in 0..keys.len() {
        take_row(explorer, turns, keys.key(number), &mut row)?;
        steps.push(&row)?;
    }
    Ok(steps)
}
