//! The values of the members of a trace's lines.

ghost use Rattle.std.specs.Prelude.{◌≡◌, ◌++◌, ◌∷◌, [], codes, decimal, OnOk};
ghost use Rattle.trace_text.specs.Composites.{member};
ghost use Rattle.trace_text.specs.Scalars.{number_or_null};
ghost use Rattle.trace_text.specs.Values.{access_value, cause_text, end_value, kind_name, name_value, register_value, text_value};

use crate::names::{cause_name, kind_name};
use crate::scalar::{push_number, push_number_or_null};
use crate::string::push_string;
use hart_step::{AccessKind, Cause, HartState};
use isa_disasm::line_of;
use isa_names::abi_name;
use isa_table::Instr;
use std::alloc::{AllocError, Allocator};
use trace_steps::{ToldAccess, Written};

/// Appends the canonical line of a word at an address, or `null` where it is no instruction or
/// there is none.
#[tactic(auto, unfolding(crate::specs::Values::text_value))]
pub(crate) fn push_text<A: Allocator>(
    alloc: A,
    out: &mut Vec<u8, A>,
    pc: u32,
    word: Option<u32>,
    instr: Option<Instr>,
) -> Result<(), AllocError>
    ensures { OnOk result (out.new.items ≡ out.old.items ++ text_value pc word instr) }
{
    match (word, instr) {
        (Some(word), Some(_)) => {
            let text = line_of(alloc, pc, word)?;
            push_string(out, &text)
        }
        _ => out.extend_from_slice(b"null"),
    }
}

// Appends what was done with the bytes, behind the opening brace.
#[tactic(auto, unfolding(crate::specs::Composites::member))]
fn push_kind<A: Allocator>(out: &mut Vec<u8, A>, kind: AccessKind) -> Result<(), AllocError>
    ensures { OnOk result (out.new.items ≡ out.old.items
        ++ 123 ∷ member (codes "kind") (name_value (kind_name kind))) }
{
    out.extend_from_slice(b"{\"kind\":\"")?;
    out.extend_from_slice(kind_name(kind).as_bytes())?;
    out.extend_from_slice(b"\"")
}

// Appends where the bytes stand, and how many they are.
#[tactic(auto, unfolding(crate::specs::Composites::member))]
fn push_place<A: Allocator>(out: &mut Vec<u8, A>, address: u32, size: u32) -> Result<(), AllocError>
    ensures { OnOk result (out.new.items ≡ out.old.items
        ++ 44 ∷ (member (codes "address") (decimal address) ++ 44 ∷ member (codes "size") (decimal size))) }
{
    out.extend_from_slice(b",\"address\":")?;
    push_number(out, u64::from(address))?;
    out.extend_from_slice(b",\"size\":")?;
    push_number(out, u64::from(size))
}

// Appends the number that the bytes spelled and the one that they spell, and the closing brace.
#[tactic(auto, unfolding(crate::specs::Composites::member))]
fn push_contents<A: Allocator>(
    out: &mut Vec<u8, A>,
    before: Option<u32>,
    after: Option<u32>,
) -> Result<(), AllocError>
    ensures { OnOk result (out.new.items ≡ out.old.items
        ++ 44 ∷ (member (codes "before") (number_or_null before)
        ++ 44 ∷ (member (codes "after") (number_or_null after) ++ 125 ∷ []))) }
{
    out.extend_from_slice(b",\"before\":")?;
    push_number_or_null(out, before)?;
    out.extend_from_slice(b",\"after\":")?;
    push_number_or_null(out, after)?;
    out.extend_from_slice(b"}")
}

/// Appends what was accessed.
#[tactic(auto, unfolding(crate::specs::Values::access_value))]
pub(crate) fn push_access<A: Allocator>(
    out: &mut Vec<u8, A>,
    access: Option<ToldAccess>,
) -> Result<(), AllocError>
    ensures { OnOk result (out.new.items ≡ out.old.items ++ access_value access) }
{
    let Some(access) = access else {
        return out.extend_from_slice(b"null");
    };
    push_kind(out, access.kind)?;
    push_place(out, access.address, access.size)?;
    push_contents(out, access.before, access.after)
}

/// Appends what register was written.
#[tactic(auto, unfolding(crate::specs::Values::register_value, crate::specs::Composites::member))]
pub(crate) fn push_register<A: Allocator>(
    out: &mut Vec<u8, A>,
    written: Option<Written>,
) -> Result<(), AllocError>
    ensures { OnOk result (out.new.items ≡ out.old.items ++ register_value written) }
{
    let Some(written) = written else {
        return out.extend_from_slice(b"null");
    };
    out.extend_from_slice(b"{\"name\":\"")?;
    out.extend_from_slice(abi_name(written.register).as_bytes())?;
    out.extend_from_slice(b"\",\"value\":")?;
    push_number(out, u64::from(written.value))?;
    out.extend_from_slice(b"}")
}

// Appends what a hart does, behind the opening brace.
#[tactic(auto, unfolding(crate::specs::Composites::member))]
fn push_state<A: Allocator>(out: &mut Vec<u8, A>, state: &str) -> Result<(), AllocError>
    ensures { OnOk result (out.new.items ≡ out.old.items
        ++ 123 ∷ member (codes "state") (name_value state.now)) }
{
    out.extend_from_slice(b"{\"state\":\"")?;
    out.extend_from_slice(state.as_bytes())?;
    out.extend_from_slice(b"\"")
}

// Appends the status of a hart that stopped itself, and the closing brace.
#[tactic(auto, unfolding(crate::specs::Composites::member))]
fn push_status<A: Allocator>(out: &mut Vec<u8, A>, status: u32) -> Result<(), AllocError>
    ensures { OnOk result (out.new.items ≡ out.old.items
        ++ 44 ∷ (member (codes "status") (decimal status) ++ 125 ∷ [])) }
{
    out.extend_from_slice(b",\"status\":")?;
    push_number(out, u64::from(status))?;
    out.extend_from_slice(b"}")
}

// Appends why a hart was stopped by its instruction, and the closing brace.
#[tactic(auto, unfolding(crate::specs::Composites::member))]
fn push_cause<A: Allocator>(out: &mut Vec<u8, A>, cause: Cause) -> Result<(), AllocError>
    ensures { OnOk result (out.new.items ≡ out.old.items
        ++ 44 ∷ (member (codes "cause") (name_value (cause_text cause)) ++ 125 ∷ [])) }
{
    out.extend_from_slice(b",\"cause\":\"")?;
    out.extend_from_slice(cause_name(cause).as_bytes())?;
    out.extend_from_slice(b"\"}")
}

/// Appends whether a hart runs.
#[tactic(auto, unfolding(crate::specs::Values::end_value))]
pub(crate) fn push_end<A: Allocator>(
    out: &mut Vec<u8, A>,
    state: HartState,
) -> Result<(), AllocError>
    ensures { OnOk result (out.new.items ≡ out.old.items ++ end_value state) }
{
    match state {
        HartState::Running => {
            push_state(out, "running")?;
            out.extend_from_slice(b"}")
        }
        HartState::Exited(status) => {
            push_state(out, "exited")?;
            push_status(out, status)
        }
        HartState::Faulted(cause) => {
            push_state(out, "faulted")?;
            push_cause(out, cause)
        }
    }
}
