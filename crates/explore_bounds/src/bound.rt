//! The bound on a hart's own steps.
ghost use Rattle.std.specs.Prelude.{◌≡◌, ℕ, ◌<◌, false, List, Option, Some, IfOk, length, slice_get};
ghost use Rattle.std.specs.List.{Contains};
ghost use Rattle.machine.specs.World.{World};
ghost use Rattle.explore_laws.specs.Places.{Place, place_begun};
ghost use Rattle.explore_laws.specs.OwnSteps.{HasPlainChoices, KeysAreClear};
ghost use Rattle.machine.specs.Chosen.{own};
ghost use Rattle.explore_laws.specs.Covering.{WorldCovers};
ghost use Rattle.explore_laws.specs.Quiet.{AreAligned, CanWait, OfNextStep};
ghost use Rattle.explore_laws.specs.Settling.{Stride};
ghost use Rattle.explore_search.specs.Edges.{HaveEdges};
ghost use Rattle.explore_search.specs.Marked.{AllBelow};
ghost use Rattle.explore_bounds.specs.Numbers.{AreTaken, AreWide, EndsRaising, IsLimit};
ghost use Rattle.explore_bounds.specs.Steps.{AreLedTo, HaveSteps, TellsBound};

use crate::limit::{has_over, limit_of};
use crate::raising::raise_more;
use crate::rounds::goes_round;
use explore_table::Rows;
use machine::Choice;
use std::alloc::{AllocError, Allocator};

/// A bound on a hart's own steps.
#[derive(Clone, Copy, PartialEq, Eq)]
pub enum Bound {
    /// The hart has stopped after so many own steps in every schedule, and after fewer it may run.
    After(u64),
    /// The hart may run after any number of own steps.
    Never,
}

// So many zeros.
fn zeros<A: Allocator>(alloc: A, count: usize) -> Result<Vec<u64, A>, AllocError>
    ensures count { IfOk result (λ numbers. length numbers.items ≡ count) }
    ensures none { IfOk result (λ numbers. (k n : ℕ) → slice_get numbers.items k ≡ Some n → n ≡ 0) }
{
    let mut numbers = Vec::new(alloc);
    'zeros: for _ in 0..count {
        numbers.push(0)?;
    }
    Ok(numbers)
}

// As many hints, which lead nowhere.
fn no_hints<A: Allocator>(alloc: A, count: usize) -> Result<Vec<usize, A>, AllocError>
    ensures { IfOk result (λ hints. length hints.items ≡ count) }
{
    let mut hints = Vec::new(alloc);
    'hints: for _ in 0..count {
        hints.push(usize::MAX)?;
    }
    Ok(hints)
}

// Raises the keys' numbers until none rises, or one is over a limit, or turns go round; returns
// whether none rises.
fn raise_all<A: Allocator>(
    turns: &[Choice],
    hart: u32,
    rows: &Rows<A>,
    steps: &Rows<A>,
    limit: u64,
    numbers: &mut [u64],
    via: &mut [usize],
) -> bool
    requires some { 0 < length rows.now }
    requires rows { AreWide (length turns.now) rows.now }
    requires steps { AreWide (length turns.now) steps.now }
    requires below { AllBelow (length numbers.old) rows.now }
    requires even { length numbers.old ≡ length rows.now }
    requires even_steps { length steps.now ≡ length rows.now }
    requires via { length via.old ≡ length rows.now }
    ensures ends { EndsRaising turns.now hart rows.now steps.now limit numbers.new result }
    ensures taken { (place : List ℕ → Place) (keys : List (List ℕ)) → HaveEdges place turns.now keys rows.now
        → HaveSteps place turns.now keys steps.now
        → AreTaken turns.now hart place keys numbers.old → AreTaken turns.now hart place keys numbers.new }
    ensures even { length numbers.new ≡ length numbers.old }
{
    let mut is_more = true;
    'passes: while is_more {
        is_more = raise_more(turns, hart, rows, steps, numbers, via);
        if has_over(numbers, limit) {
            return false;
        }
        if goes_round(turns, hart, rows, steps, via) {
            return false;
        }
    }
    true
}

// The bound on a hart's own steps, where all numbers are 0 and none need pass a limit.
fn bound_from<A: Allocator>(
    turns: &[Choice],
    hart: u32,
    rows: &Rows<A>,
    steps: &Rows<A>,
    limit: u64,
    numbers: &mut [u64],
    via: &mut [usize],
) -> Bound
    requires some { 0 < length rows.now }
    requires rows { AreWide (length turns.now) rows.now }
    requires steps { AreWide (length turns.now) steps.now }
    requires below { AllBelow (length numbers.old) rows.now }
    requires even { length numbers.old ≡ length rows.now }
    requires even_steps { length steps.now ≡ length rows.now }
    requires via { length via.old ≡ length rows.now }
    requires limit { IsLimit steps.now limit }
    requires none { (k n : ℕ) → slice_get numbers.old k ≡ Some n → n ≡ 0 }
    ensures { (quiet clear : OfNextStep) (stride : Stride) → CanWait quiet clear stride
        → (first w : World) → AreAligned w → (covers : WorldCovers quiet first w)
        → (place : List ℕ → Place) (keys : List (List ℕ)) → HasPlainChoices turns.now
        → Contains turns.now (record { hart = hart; refuse = false }) → KeysAreClear clear turns.now place keys
        → AreLedTo turns.now (place_begun stride first) place keys → HaveEdges place turns.now keys rows.now
        → HaveSteps place turns.now keys steps.now
        → TellsBound turns.now first w (own covers.choices hart) hart result }
{
    if raise_all(turns, hart, rows, steps, limit, numbers, via) {
        Bound::After(numbers[0])
    } else {
        Bound::Never
    }
}

/// The exact bound on a hart's own steps in every list of these turns' choices, or that it has
/// none. Row number k of `rows` has the numbers of the keys to which the turns lead from key
/// number k, and that of `steps` how many steps the turn's hart takes in each; key 0 is the first
/// place's. The only error is out of memory; so is answered where these could be 2^64 steps.
pub fn own_bound<A: Allocator + Copy>(
    alloc: A,
    turns: &[Choice],
    rows: &Rows<A>,
    steps: &Rows<A>,
    hart: u32,
) -> Result<Bound, AllocError>
    requires some { 0 < length rows.now }
    requires rows { AreWide (length turns.now) rows.now }
    requires steps { AreWide (length turns.now) steps.now }
    requires below { AllBelow (length rows.now) rows.now }
    requires even { length steps.now ≡ length rows.now }
    ensures { IfOk result (λ bound. (quiet clear : OfNextStep) (stride : Stride) → CanWait quiet clear stride
        → (first w : World) → AreAligned w → (covers : WorldCovers quiet first w)
        → (place : List ℕ → Place) (keys : List (List ℕ)) → HasPlainChoices turns.now
        → Contains turns.now (record { hart = hart; refuse = false }) → KeysAreClear clear turns.now place keys
        → AreLedTo turns.now (place_begun stride first) place keys → HaveEdges place turns.now keys rows.now
        → HaveSteps place turns.now keys steps.now
        → TellsBound turns.now first w (own covers.choices hart) hart bound) }
{
    let Some(limit) = limit_of(steps) else {
        return Err(AllocError);
    };
    let mut numbers = zeros(alloc, rows.len())?;
    let mut via = no_hints(alloc, rows.len())?;
    Ok(bound_from(turns, hart, rows, steps, limit, &mut numbers, &mut via))
}
