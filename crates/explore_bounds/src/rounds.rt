//! Rounds in which a hart steps.
ghost use Rattle.std.specs.Prelude.{◌≡◌, ◌<◌, true, length};
ghost use Rattle.explore_search.specs.Marked.{AllBelow};
ghost use Rattle.explore_bounds.specs.Numbers.{AreWide};
ghost use Rattle.explore_bounds.specs.Rounds.{GoRound};

use crate::raising::own_in;
use explore_table::Rows;
use machine::Choice;
use std::alloc::Allocator;

// Where the turn leads that a hint names for a key; the key itself where there is none.
fn next_by<A: Allocator>(rows: &Rows<A>, via: &[usize], number: usize) -> usize
    requires below { AllBelow (length rows.now) rows.now }
    requires there { number < length rows.now }
    requires via { length via.now ≡ length rows.now }
    ensures { result < length rows.now }
{
    let row = rows.row(number);
    let turn = via[number];
    if turn >= row.len() {
        return number;
    }
    row[turn] as usize
}

// Whether the turns that hints name lead round from a key, and the hart steps in them.
fn round_by<A: Allocator>(
    turns: &[Choice],
    hart: u32,
    rows: &Rows<A>,
    steps: &Rows<A>,
    via: &[usize],
    first: usize,
) -> bool
    requires rows { AreWide (length turns.now) rows.now }
    requires steps { AreWide (length turns.now) steps.now }
    requires below { AllBelow (length rows.now) rows.now }
    requires even { length steps.now ≡ length rows.now }
    requires via { length via.now ≡ length rows.now }
    requires there { first < length rows.now }
    ensures { result ≡ true → GoRound turns.now hart rows.now steps.now }
{
    let mut at = first;
    let mut total = 0u64;
    'turns: for _ in 0..rows.len() {
        let row = rows.row(at);
        let own = steps.row(at);
        let i = via[at];
        if i >= row.len() {
            return false;
        }
        let taken = own_in(turns[i], hart, own[i]);
        total = total.saturating_add(taken);
        at = row[i] as usize;
        if at == first {
            return total > 0;
        }
    }
    false
}

/// Whether the turns that hints name lead from the first key to a round in which the hart steps.
pub(crate) fn goes_round<A: Allocator>(
    turns: &[Choice],
    hart: u32,
    rows: &Rows<A>,
    steps: &Rows<A>,
    via: &[usize],
) -> bool
    requires some { 0 < length rows.now }
    requires rows { AreWide (length turns.now) rows.now }
    requires steps { AreWide (length turns.now) steps.now }
    requires below { AllBelow (length rows.now) rows.now }
    requires even { length steps.now ≡ length rows.now }
    requires via { length via.now ≡ length rows.now }
    ensures { result ≡ true → GoRound turns.now hart rows.now steps.now }
{
    let mut at = 0;
    'there: for _ in 0..rows.len() {
        at = next_by(rows, via, at);
    }
    round_by(turns, hart, rows, steps, via, at)
}
