//! The answers as objects of JSON.

ghost use Rattle.std.specs.Prelude.{◌≡◌, ◌++◌, ◌∷◌, [], codes, decimal, map, IfOk, OnOk};
ghost use Rattle.cmd_explore.specs.Objects.{bound_value, end_object, exit_value, held_object, list_object, undecided_object};
ghost use Rattle.explore_space.specs.Ends.{ends_in};
ghost use Rattle.json.specs.Print.{quoted};
ghost use Rattle.trace_text.specs.Composites.{array, member};
ghost use Rattle.trace_text.specs.Values.{name_value};

use crate::object_lists::{push_bounds, push_ends};
use cmd_json::{push_key, push_name_member, push_next_number, push_string_member};
use explore_space::{Bound, Ends, Failing, Held};
use outcome::Exit;
use sched_text::print_runs;
use std::alloc::{AllocError, Allocator};

// Appends `true` where each world has a way out, and `null` where that isn't asked.
#[tactic(auto, unfolding(crate::specs::Objects::exit_value))]
fn push_exit<A: Allocator>(out: &mut Vec<u8, A>, exit: Exit) -> Result<(), AllocError>
    ensures { OnOk result (out.new.items ≡ out.old.items ++ exit_value exit) }
{
    match exit {
        Exit::May => out.extend_from_slice(b"null"),
        Exit::Must => out.extend_from_slice(b"true"),
    }
}

// Appends whether each world has a way out.
#[tactic(auto, unfolding(trace_text::specs::Composites::member))]
fn push_ways_out<A: Allocator>(out: &mut Vec<u8, A>, exit: Exit) -> Result<(), AllocError>
    ensures { OnOk result (out.new.items ≡ out.old.items
        ++ member (codes "ways_out") (exit_value exit)) }
{
    push_key(out, "ways_out")?;
    push_exit(out, exit)
}

// Appends that no schedule fails, how many worlds there are, and whether each has a way out.
fn push_worlds<A: Allocator>(
    out: &mut Vec<u8, A>,
    exit: Exit,
    worlds: usize,
) -> Result<(), AllocError>
    ensures { OnOk result (out.new.items ≡ out.old.items
        ++ (member (codes "answer") (name_value (codes "holds"))
        ++ 44 ∷ (member (codes "worlds") (decimal worlds)
        ++ 44 ∷ member (codes "ways_out") (exit_value exit)))) }
{
    push_name_member(out, "answer", "holds")?;
    push_next_number(out, "worlds", worlds as u64)?;
    out.push(b',')?;
    push_ways_out(out, exit)
}

// Appends the ends.
#[tactic(auto, unfolding(trace_text::specs::Composites::member))]
fn push_ways<A: Allocator + Copy>(out: &mut Vec<u8, A>, ends: &Ends<A>) -> Result<(), AllocError>
    ensures { OnOk result (out.new.items ≡ out.old.items
        ++ member (codes "ends") (array (map end_object (ends_in ends.now)))) }
{
    push_key(out, "ends")?;
    push_ends(out, ends.as_slice())
}

// Appends the bounds.
#[tactic(auto, unfolding(trace_text::specs::Composites::member))]
fn push_limits<A: Allocator>(out: &mut Vec<u8, A>, bounds: &[Bound]) -> Result<(), AllocError>
    ensures { OnOk result (out.new.items ≡ out.old.items
        ++ member (codes "bounds") (array (map bound_value bounds.now))) }
{
    push_key(out, "bounds")?;
    push_bounds(out, bounds)
}

// Appends the ends and the bounds, the closing brace and LF.
fn push_lists<A: Allocator + Copy>(
    out: &mut Vec<u8, A>,
    ends: &Ends<A>,
    bounds: &[Bound],
) -> Result<(), AllocError>
    ensures { OnOk result (out.new.items ≡ out.old.items
        ++ (member (codes "ends") (array (map end_object (ends_in ends.now)))
        ++ 44 ∷ (member (codes "bounds") (array (map bound_value bounds.now)) ++ 125 ∷ 10 ∷ []))) }
{
    push_ways(out, ends)?;
    out.push(b',')?;
    push_limits(out, bounds)?;
    out.extend_from_slice(b"}\n")
}

/// The object of a program that fails in no schedule, and LF. Fails when out of memory.
#[tactic(auto, unfolding(crate::specs::Objects::held_object))]
pub(crate) fn held_object<A: Allocator + Copy>(
    alloc: A,
    exit: Exit,
    held: &Held<A>,
) -> Result<Vec<u8, A>, AllocError>
    ensures { IfOk result (λ text. text.items
        ≡ held_object exit held.now.places (ends_in held.now.ends) held.now.bounds.items) }
{
    let mut out = Vec::new(alloc);
    out.push(b'{')?;
    push_worlds(&mut out, exit, held.places)?;
    out.push(b',')?;
    push_lists(&mut out, &held.ends, &held.bounds)?;
    Ok(out)
}

// Appends a comma, a choice text, the closing brace and LF.
fn push_choices<A: Allocator>(out: &mut Vec<u8, A>, choices: &str) -> Result<(), AllocError>
    ensures { OnOk result (out.new.items ≡ out.old.items
        ++ 44 ∷ (member (codes "choices") (quoted choices.now) ++ 125 ∷ 10 ∷ [])) }
{
    out.push(b',')?;
    push_string_member(out, "choices", choices)?;
    out.extend_from_slice(b"}\n")
}

/// The object of a list that fails or hangs, as the answer's word says, and LF. Fails when out of
/// memory.
#[tactic(auto, unfolding(crate::specs::Objects::list_object))]
pub(crate) fn list_object<A: Allocator + Copy>(
    alloc: A,
    answer: &str,
    list: &Failing<A>,
) -> Result<Vec<u8, A>, AllocError>
    ensures { IfOk result (λ text. text.items
        ≡ list_object answer.now list.now.turns list.now.choices.items) }
{
    let choices = print_runs(alloc, &list.choices)?;
    let mut out = Vec::new(alloc);
    out.push(b'{')?;
    push_name_member(&mut out, "answer", answer)?;
    push_next_number(&mut out, "turns", list.turns as u64)?;
    push_choices(&mut out, &choices)?;
    Ok(out)
}

/// The object of a program with more worlds than so many, and LF. Fails when out of memory.
#[tactic(auto, unfolding(crate::specs::Objects::undecided_object))]
pub fn undecided_object<A: Allocator>(alloc: A, most: usize) -> Result<Vec<u8, A>, AllocError>
    ensures { IfOk result (λ text. text.items ≡ undecided_object most) }
{
    let mut out = Vec::new(alloc);
    out.push(b'{')?;
    push_name_member(&mut out, "answer", "undecided")?;
    push_next_number(&mut out, "most", most as u64)?;
    out.extend_from_slice(b"}\n")?;
    Ok(out)
}
