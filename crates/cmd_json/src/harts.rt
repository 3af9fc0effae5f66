//! How harts ended.

ghost use Rattle.std.specs.Prelude.{◌≡◌, ◌++◌, ◌∷◌, [], codes, decimal, map, OnOk};
ghost use Rattle.hart_step.specs.Hart.{hart_of};
ghost use Rattle.outcome.specs.Ends.{a0_of, a1_of};
ghost use Rattle.cmd_json.specs.Harts.{ended_object, ended_objects, harts_value};
ghost use Rattle.trace_text.specs.Composites.{member, more_elements};
ghost use Rattle.trace_text.specs.Values.{cause_text, name_value};

use crate::members::{push_name_member, push_next_number, push_number_member};
use hart_step::{Cause, Hart, HartState};
use std::alloc::{AllocError, Allocator};
use trace_text::cause_name;

// The indices of a0 and a1 among the registers.
const A0: usize = 10;

const A1: usize = 11;

// Appends a hart's number and state, behind the opening brace.
fn push_state<A: Allocator>(
    out: &mut Vec<u8, A>,
    number: usize,
    state: &str,
) -> Result<(), AllocError>
    ensures { OnOk result (out.new.items ≡ out.old.items
        ++ 123 ∷ (member (codes "hart") (decimal number)
        ++ 44 ∷ member (codes "state") (name_value state.now))) }
{
    out.push(b'{')?;
    push_number_member(out, "hart", number as u64)?;
    out.push(b',')?;
    push_name_member(out, "state", state)
}

// Appends where a hart stands, and the closing brace.
fn push_pc<A: Allocator>(out: &mut Vec<u8, A>, pc: u32) -> Result<(), AllocError>
    ensures { OnOk result (out.new.items ≡ out.old.items
        ++ 44 ∷ (member (codes "pc") (decimal pc) ++ 125 ∷ [])) }
{
    push_next_number(out, "pc", u64::from(pc))?;
    out.extend_from_slice(b"}")
}

// Appends what a hart returned, and the closing brace.
fn push_results<A: Allocator>(out: &mut Vec<u8, A>, hart: &Hart) -> Result<(), AllocError>
    ensures { OnOk result (out.new.items ≡ out.old.items
        ++ 44 ∷ (member (codes "a0") (decimal (a0_of (hart_of hart.now)))
        ++ 44 ∷ (member (codes "a1") (decimal (a1_of (hart_of hart.now))) ++ 125 ∷ []))) }
{
    push_next_number(out, "a0", u64::from(hart.registers[A0]))?;
    push_next_number(out, "a1", u64::from(hart.registers[A1]))?;
    out.extend_from_slice(b"}")
}

// Appends why a hart was stopped by its instruction.
fn push_cause<A: Allocator>(out: &mut Vec<u8, A>, cause: Cause) -> Result<(), AllocError>
    ensures { OnOk result (out.new.items ≡ out.old.items
        ++ 44 ∷ member (codes "cause") (name_value (cause_text cause))) }
{
    out.push(b',')?;
    push_name_member(out, "cause", cause_name(cause))
}

// Appends a hart.
#[tactic(auto, unfolding(crate::specs::Harts::ended_object))]
fn push_hart<A: Allocator>(
    out: &mut Vec<u8, A>,
    number: usize,
    hart: &Hart,
) -> Result<(), AllocError>
    ensures { OnOk result (out.new.items ≡ out.old.items ++ ended_object number (hart_of hart.now)) }
{
    match hart.state {
        HartState::Running => {
            push_state(out, number, "running")?;
            push_pc(out, hart.pc)
        }
        HartState::Exited(_) => {
            push_state(out, number, "exited")?;
            push_results(out, hart)
        }
        HartState::Faulted(cause) => {
            push_state(out, number, "faulted")?;
            push_cause(out, cause)?;
            push_pc(out, hart.pc)
        }
    }
}

// Appends harts behind hart 0, each behind a comma, and the closing bracket.
fn push_more_harts<A: Allocator>(out: &mut Vec<u8, A>, harts: &[Hart]) -> Result<(), AllocError>
    ensures { OnOk result (out.new.items
        ≡ out.old.items ++ more_elements (ended_objects 1 (map hart_of harts.now))) }
{
    for (place, hart) in harts.iter().enumerate() {
        out.push(b',')?;
        push_hart(out, place + 1, hart)?;
    }
    out.push(b']')?;
    Ok(())
}

/// Appends the array of harts, from hart 0 on: of each its number and its state, and `pc` where it
/// runs or has faulted, with the cause of the fault, or what it returned in a0 and a1.
pub fn push_harts<A: Allocator>(out: &mut Vec<u8, A>, harts: &[Hart]) -> Result<(), AllocError>
    ensures { OnOk result (out.new.items ≡ out.old.items ++ harts_value (map hart_of harts.now)) }
{
    let [first, rest @ ..] = harts else {
        return out.extend_from_slice(b"[]");
    };
    out.push(b'[')?;
    push_hart(out, 0, first)?;
    push_more_harts(out, rest)
}
