//! Numbers of keys, raised by where turns lead.
ghost use Rattle.std.specs.Prelude.{◌≡◌, ℕ, ◌<◌, ◌≤◌, ◌^◌, ◌-◌, List, Some, length, slice_get};
ghost use Rattle.explore_laws.specs.Places.{Place};
ghost use Rattle.explore_search.specs.Edges.{HaveEdges, Lead};
ghost use Rattle.explore_search.specs.Marked.{AllBelow, AreBelow};
ghost use Rattle.explore_bounds.specs.Numbers.{
  AreTaken,
  AreWide,
  RaisesAll,
  RaisesOne,
  RaisesTo,
  own_in,
  raised_by,
};
ghost use Rattle.explore_bounds.specs.Steps.{AreStepsFrom, HaveSteps};

use explore_table::Rows;
use machine::Choice;
use std::alloc::Allocator;

/// A hart's own steps in a turn, of which so many steps are those of the turn's hart.
pub(crate) fn own_in(turn: Choice, hart: u32, steps: u32) -> u64
    ensures { result ≡ own_in turn.hart hart steps }
{
    if turn.hart == hart {
        u64::from(steps)
    } else {
        0
    }
}

// A hart's own steps in a turn and behind it, 2^64 - 1 at most.
fn raised_by(turn: Choice, hart: u32, steps: u32, numbers: &[u64], to: usize) -> u64
    requires { to < length numbers.now }
    ensures number { (t : ℕ) → slice_get numbers.now to ≡ Some t → result ≡ raised_by (own_in turn.hart hart steps) t }
    ensures fits { result ≤ 2 ^ 64 - 1 }
{
    own_in(turn, hart, steps).saturating_add(numbers[to])
}

// Raises a key's number to another, if that is larger, and returns whether it did.
fn raise_to(numbers: &mut [u64], number: usize, most: u64) -> bool
    requires { number < length numbers.old }
    ensures raises { RaisesTo numbers.old numbers.new number most result }
    ensures even { length numbers.new ≡ length numbers.old }
{
    if most <= numbers[number] {
        return false;
    }
    numbers[number] = most;
    true
}

// Raises a key's number to the own steps in each turn and behind it, and returns whether it did. By
// which turn it was raised last is kept as a hint.
fn raise_one(
    turns: &[Choice],
    hart: u32,
    row: &[u32],
    steps: &[u32],
    numbers: &mut [u64],
    via: &mut [usize],
    number: usize,
) -> bool
    requires row { length row.now ≡ length turns.now }
    requires steps { length steps.now ≡ length turns.now }
    requires below { AreBelow (length numbers.old) row.now }
    requires there { number < length numbers.old }
    requires via { length via.old ≡ length numbers.old }
    ensures raises { RaisesOne turns.now hart row.now steps.now numbers.old numbers.new number (length row.now) result }
    ensures taken { (place : List ℕ → Place) (keys : List (List ℕ)) (key : List ℕ) → slice_get keys number ≡ Some key
        → Lead place turns.now keys (place key) row.now → AreStepsFrom turns.now (place key) steps.now
        → AreTaken turns.now hart place keys numbers.old → AreTaken turns.now hart place keys numbers.new }
    ensures even { length numbers.new ≡ length numbers.old }
    ensures via { length via.new ≡ length via.old }
{
    let mut is_more = false;
    'turns: for i in 0..row.len() {
        let turn = turns[i];
        let own = steps[i];
        let to = row[i] as usize;
        let most = raised_by(turn, hart, own, numbers, to);
        if raise_to(numbers, number, most) {
            is_more = true;
            via[number] = i;
        }
    }
    is_more
}

/// Raises the keys' numbers, the last first, and returns whether any was raised. By which turn each
/// was raised last is kept as a hint.
pub(crate) fn raise_more<A: Allocator>(
    turns: &[Choice],
    hart: u32,
    rows: &Rows<A>,
    steps: &Rows<A>,
    numbers: &mut [u64],
    via: &mut [usize],
) -> bool
    requires rows { AreWide (length turns.now) rows.now }
    requires steps { AreWide (length turns.now) steps.now }
    requires below { AllBelow (length numbers.old) rows.now }
    requires even { length numbers.old ≡ length rows.now }
    requires even_steps { length steps.now ≡ length rows.now }
    requires via { length via.old ≡ length rows.now }
    ensures raises { RaisesAll turns.now hart rows.now steps.now numbers.old numbers.new 0 result }
    ensures taken { (place : List ℕ → Place) (keys : List (List ℕ)) → HaveEdges place turns.now keys rows.now
        → HaveSteps place turns.now keys steps.now
        → AreTaken turns.now hart place keys numbers.old → AreTaken turns.now hart place keys numbers.new }
    ensures even { length numbers.new ≡ length numbers.old }
    ensures via { length via.new ≡ length via.old }
{
    let mut is_more = false;
    let count = numbers.len();
    'keys: for back in 0..count {
        let number = count - 1 - back;
        let row = rows.row(number);
        let own = steps.row(number);
        if raise_one(turns, hart, row, own, numbers, via, number) {
            is_more = true;
        }
    }
    is_more
}
