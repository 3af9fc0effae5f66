//! Places without a way out.
ghost use Rattle.std.specs.Prelude.{◌≡◌, ℕ, ◌<◌, Bool, true, false, List, Some, IfOk, IfNone, IfSome, length, slice_get};
ghost use Rattle.machine.specs.declared.choice.Choice.{Choice as ChoiceValue};
ghost use Rattle.explore_laws.specs.Places.{Place};
ghost use Rattle.explore_search.specs.Edges.{HaveEdges};
ghost use Rattle.explore_search.specs.Marked.{
  AllBelow,
  AnswersStuck,
  AreAllSeen,
  AreBelow,
  AreShut,
  HaveMarkedWaysOut,
  LeadsToMarked,
  MarkEnded,
  MarksMore,
  MarksOne,
  MarksStay,
};

use crate::seen::Seen;
use crate::space::Space;
use explore_table::Rows;
use machine::Choice;
use std::alloc::{AllocError, Allocator};

// Whether a row leads to a marked key.
fn leads_to_marked(row: &[u32], marks: &[bool]) -> bool
    requires { AreBelow (length marks.now) row.now }
    ensures { LeadsToMarked row.now marks.now result }
{
    'edges: for to in row {
        if marks[*to as usize] {
            return true;
        }
    }
    false
}

// Marks a key if its row leads to a marked one, and returns whether it was marked now.
fn mark_one(row: &[u32], marks: &mut [bool], number: usize) -> bool
    requires below { AreBelow (length marks.old) row.now }
    requires there { number < length marks.old }
    ensures marks { MarksOne row.now marks.old marks.new number result }
    ensures even { length marks.new ≡ length marks.old }
{
    if marks[number] {
        return false;
    }
    let leads = leads_to_marked(row, marks);
    if leads {
        marks[number] = true;
    }
    leads
}

// Marks keys whose rows lead to a marked one, the last first, and returns whether any was marked
// now.
fn mark_more<A: Allocator>(rows: &Rows<A>, marks: &mut [bool]) -> bool
    requires below { AllBelow (length marks.old) rows.now }
    requires even { length marks.old ≡ length rows.now }
    ensures marks { MarksMore rows.now marks.old marks.new 0 result }
    ensures ways { (choices : List ChoiceValue) (ended : Place → Bool) (place : List ℕ → Place) (keys : List (List ℕ))
        → HaveEdges place choices keys rows.now
        → HaveMarkedWaysOut choices ended place keys marks.old → HaveMarkedWaysOut choices ended place keys marks.new }
    ensures marks_stay { MarksStay marks.old marks.new }
    ensures even { length marks.new ≡ length marks.old }
{
    let mut is_more = false;
    let count = marks.len();
    'keys: for back in 0..count {
        let number = count - 1 - back;
        if mark_one(rows.row(number), marks, number) {
            is_more = true;
        }
    }
    is_more
}

// Marks all keys whose places have a way out, where those are marked whose places have ended.
fn mark_all<A: Allocator>(rows: &Rows<A>, marks: &mut [bool])
    requires below { AllBelow (length marks.old) rows.now }
    requires even { length marks.old ≡ length rows.now }
    ensures shut { AreShut rows.now marks.new 0 }
    ensures ways { (choices : List ChoiceValue) (ended : Place → Bool) (place : List ℕ → Place) (keys : List (List ℕ))
        → HaveEdges place choices keys rows.now
        → HaveMarkedWaysOut choices ended place keys marks.old → HaveMarkedWaysOut choices ended place keys marks.new }
    ensures marks_stay { MarksStay marks.old marks.new }
    ensures even { length marks.new ≡ length marks.old }
{
    let mut is_more = true;
    'passes: while is_more {
        is_more = mark_more(rows, marks);
    }
}

// Marks the keys whose places have ended.
fn mark_ended<A: Allocator, S: Space<A>>(
    alloc: A,
    space: &S,
    seen: &Seen<A>,
) -> Result<Vec<bool, A>, AllocError>
    requires { (k : ℕ) (key : List ℕ) → slice_get seen.now.keys k ≡ Some key → S.is_key space.now key }
    ensures even { IfOk result (λ marks. length marks.items ≡ length seen.now.keys) }
    ensures ended { IfOk result (λ marks. MarkEnded (S.place space.now) (S.ended space.now) seen.now.keys marks.items) }
{
    let mut marks = Vec::new(alloc);
    'keys: for number in 0..seen.keys.len() {
        marks.push(space.has_ended(seen.keys.key(number))?)?;
    }
    Ok(marks)
}

// The first number without a mark.
fn first_unmarked(marks: &[bool]) -> Option<usize>
    ensures first { IfSome result (λ number. (slice_get marks.now number ≡ Some false)
        × ((k : ℕ) → k < number → slice_get marks.now k ≡ Some true)) }
    ensures none { IfNone result ((k : ℕ) → k < length marks.now → slice_get marks.now k ≡ Some true) }
{
    'marks: for number in 0..marks.len() {
        if !marks[number] {
            return Some(number);
        }
    }
    None
}

/// A list that leads to a place without a way out, from which no list leads to a place that has
/// ended. No shorter one does; `None` where each place has a way out. It goes by the rows of a
/// search that kept them, and takes no step. The only error is out of memory.
pub fn nearest_stuck<A: Allocator + Copy, S: Space<A>>(
    alloc: A,
    space: &S,
    choices: &[Choice],
    seen: &Seen<A>,
) -> Result<Option<Vec<Choice, A>>, AllocError>
    requires seen { AreAllSeen (S.is_key space.now) (S.place space.now) (S.first space.now) choices.now
        seen.now.keys seen.now.links.items }
    requires edges { HaveEdges (S.place space.now) choices.now seen.now.keys seen.now.rows }
    ensures { IfOk result (λ found. AnswersStuck choices.now (S.first space.now) (S.ended space.now) found) }
{
    let mut marks = mark_ended(alloc, space, seen)?;
    mark_all(&seen.rows, &mut marks);
    match first_unmarked(&marks) {
        Some(number) => Ok(Some(seen.path_to(alloc, space, choices, number)?)),
        None => Ok(None),
    }
}
