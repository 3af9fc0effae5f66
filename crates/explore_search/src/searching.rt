//! The search.
ghost use Rattle.std.specs.Prelude.{◌≡◌, ℕ, ◌+◌, ◌<◌, ◌≤◌, false, List, [], Some, IfOk, OnOk, length, slice_get};
ghost use Rattle.explore_laws.specs.Places.{Place};
ghost use Rattle.explore_search.specs.Searched.{AreReached, AreDone, AreRising, AreSoon};
ghost use Rattle.explore_search.specs.Answers.{SearchAnswers, SearchCounts, SearchReaches};
ghost use Rattle.explore_search.specs.Edges.{AreEdges, AreEdgesFrom, SearchLeads};
ghost use Rattle.explore_search.specs.Marked.{SearchSees};

use crate::edges::{Edges, keep_row};
use crate::seen::{Link, Seen};
use crate::space::Space;
use byte_io::Progress;
use explore_table::{Rows, Table};
use machine::Choice;
use std::alloc::{AllocError, Allocator};

/// What a search finds.
#[derive(Drop)]
pub enum Found<A: Allocator> {
    /// No list of the choices leads to a bad place; these are the keys of the places that lists
    /// lead to, nearest first.
    Safe(Seen<A>),
    /// This list leads to a bad place.
    Bad(Vec<Choice, A>),
    /// Lists lead to more places than may be looked at.
    Undecided,
}

// Sees what follows a key, and makes the row of its place. `next` is room for a key.
fn see_next<A: Allocator, S: Space<A>>(
    space: &mut S,
    choices: &[Choice],
    seen: &mut Seen<A>,
    key: &[u32],
    from: usize,
    row: &mut Vec<u32, A>,
    next: &mut Vec<u32, A>,
) -> Result<(), AllocError>
    requires reached { AreReached (S.is_key space.old) (S.place space.old) (S.first space.old) choices.now
        seen.old.keys seen.old.links.items }
    requires done { AreDone (S.place space.old) (S.bad space.old) choices.now seen.old.keys from }
    requires there { slice_get seen.old.keys from ≡ Some key.now }
    requires good { S.bad space.old (S.place space.old key.now) ≡ false }
    requires rising { AreRising seen.old.links.items from }
    requires soon { AreSoon (S.place space.old) choices.now seen.old.keys seen.old.links.items from }
    requires edges { AreEdges (S.place space.old) choices.now seen.old.keys seen.old.rows }
    requires few { length seen.old.rows ≤ from }
    ensures reached { OnOk result (AreReached (S.is_key space.new) (S.place space.new) (S.first space.old) choices.now
        seen.new.keys seen.new.links.items) }
    ensures done { OnOk result (AreDone (S.place space.new) (S.bad space.old) choices.now seen.new.keys (from + 1)) }
    ensures rising { OnOk result (AreRising seen.new.links.items (from + 1)) }
    ensures soon { OnOk result (AreSoon (S.place space.new) choices.now seen.new.keys seen.new.links.items (from + 1)) }
    ensures first { OnOk result (S.first space.new ≡ S.first space.old) }
    ensures bad { OnOk result (S.bad space.new ≡ S.bad space.old) }
    ensures stays { OnOk result (slice_get seen.new.keys from ≡ Some key.now) }
    ensures edges { OnOk result (AreEdges (S.place space.new) choices.now seen.new.keys seen.new.rows) }
    ensures rows { OnOk result (seen.new.rows ≡ seen.old.rows) }
    ensures row { OnOk result (AreEdgesFrom (S.place space.new) choices.now seen.new.keys (S.place space.new key.now)
        row.new.items) }
{
    row.clear();
    if from > 0xffff_ffff || choices.len() > 0xffff_ffff {
        return Err(AllocError);
    }
    let Some(steps) = seen.links[from].steps.checked_add(1) else {
        return Err(AllocError);
    };
    'choices: for turn in 0..choices.len() {
        let link = Link {
            from: from as u32,
            steps,
            turn: turn as u32,
        };
        let to = seen.see_after(space, choices, key, link, next)?;
        if to > 0xffff_ffff {
            return Err(AllocError);
        }
        row.push(to as u32)?;
    }
    Ok(())
}

// The first place alone.
fn see_first<A: Allocator + Copy, S: Space<A>>(
    alloc: A,
    space: &mut S,
    choices: &[Choice],
    buckets: usize,
) -> Result<Seen<A>, AllocError>
    requires { 0 < buckets }
    ensures reached { IfOk result (λ seen. AreReached (S.is_key space.new) (S.place space.new) (S.first space.old)
        choices.now seen.keys seen.links.items) }
    ensures rising { IfOk result (λ seen. AreRising seen.links.items 0) }
    ensures rows { IfOk result (λ seen. seen.rows ≡ []) }
    ensures first { S.first space.new ≡ S.first space.old }
    ensures bad { S.bad space.new ≡ S.bad space.old }
{
    let _ = choices;
    let first = space.first_key()?;
    let mut keys = Table::new(alloc, buckets)?;
    keys.add(&first)?;
    let mut links = Vec::new(alloc);
    links.push(Link {
        from: 0,
        steps: 0,
        turn: 0,
    })?;
    Ok(Seen {
        keys,
        links,
        rows: Rows::new(alloc),
    })
}

// Writes a key into `key`, whatever stood there.
fn read_key<A: Allocator>(
    seen: &Seen<A>,
    number: usize,
    key: &mut Vec<u32, A>,
) -> Result<(), AllocError>
    requires { number < length seen.now.keys }
    ensures { OnOk result (slice_get seen.now.keys number ≡ Some key.new.items) }
{
    key.clear();
    key.extend_from_slice(seen.keys.key(number))
}

/// Looks at every place that a list of the choices leads to, nearest first, each once, and at
/// `most` of them at most, and reports after each how many these are. 2^32 places or more are
/// answered as want of memory, and so are 2^32 choices or more.
pub fn search<A: Allocator + Copy, S: Space<A>>(
    alloc: A,
    space: &mut S,
    choices: &[Choice],
    most: usize,
    edges: Edges,
    progress: &mut impl Progress,
) -> Result<Found<A>, AllocError>
    ensures answers { IfOk result (λ found. SearchAnswers choices.now (S.first space.old) (S.bad space.old) found) }
    ensures counts { IfOk result (λ found. SearchCounts choices.now (S.first space.old) most found) }
    ensures reaches { IfOk result (λ found. SearchReaches (S.is_key space.new) (S.place space.new) choices.now
        (S.first space.old) found) }
    ensures sees { IfOk result (λ found. SearchSees (S.is_key space.new) (S.place space.new) choices.now
        (S.first space.old) found) }
    ensures leads { IfOk result (λ found. SearchLeads edges (S.place space.new) choices.now found) }
    ensures first { OnOk result (S.first space.new ≡ S.first space.old) }
    ensures bad { OnOk result (S.bad space.new ≡ S.bad space.old) }
{
    let mut seen = see_first(alloc, space, choices, 1024)?;
    let mut key = Vec::new(alloc);
    let mut row = Vec::new(alloc);
    let mut next = Vec::new(alloc);
    'places: for from in 0..most {
        let count = seen.keys.len();
        if from >= count {
            return Ok(Found::Safe(seen));
        }
        read_key(&seen, from, &mut key)?;
        let is_bad = space.is_bad(&key)?;
        if is_bad {
            return Ok(Found::Bad(seen.path_to(alloc, space, choices, from)?));
        }
        let depth = u64::from(seen.links[from].steps);
        see_next(space, choices, &mut seen, &key, from, &mut row, &mut next)?;
        keep_row(&mut seen.rows, edges, &row)?;
        progress.worlds_done(from as u64 + 1, seen.keys.len() as u64, depth);
    }
    let found = seen.keys.len();
    if found <= most {
        return Ok(Found::Safe(seen));
    }
    Ok(Found::Undecided)
}
