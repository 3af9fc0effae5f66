//! The line of a choice.

ghost use Rattle.std.specs.Prelude.{◌≡◌, ◌++◌, ◌∷◌, [], codes, decimal, OnOk};
ghost use Rattle.trace_text.specs.Composites.{member, more_members};
ghost use Rattle.trace_text.specs.Scalars.{flag_text, number_or_null};
ghost use Rattle.trace_text.specs.Line.{line_of, told_object};
ghost use Rattle.trace_text.specs.Values.{text_value, access_value, register_value, end_value};

use crate::scalar::{push_flag, push_number, push_number_or_null};
use crate::values::{push_access, push_end, push_register, push_text};
use std::alloc::{AllocError, Allocator};
use trace_steps::Told;

// Appends which choice it is.
#[tactic(auto, unfolding(crate::specs::Composites::member))]
fn push_choice<A: Allocator>(out: &mut Vec<u8, A>, told: &Told, k: u64) -> Result<(), AllocError>
    ensures { OnOk result (out.new.items ≡ out.old.items ++ 123 ∷ (member (codes "choice") (decimal k)
        ++ 44 ∷ member (codes "hart") (decimal told.now.choice.hart))) }
{
    out.extend_from_slice(b"{\"choice\":")?;
    push_number(out, k)?;
    out.extend_from_slice(b",\"hart\":")?;
    push_number(out, u64::from(told.choice.hart))
}

// Appends the choice's mark.
#[tactic(auto, unfolding(crate::specs::Composites::member))]
fn push_refused<A: Allocator>(out: &mut Vec<u8, A>, told: &Told) -> Result<(), AllocError>
    ensures { OnOk result (out.new.items
        ≡ out.old.items ++ 44 ∷ member (codes "refused") (flag_text told.now.choice.refuse)) }
{
    out.extend_from_slice(b",\"refused\":")?;
    push_flag(out, told.choice.refuse)
}

// Appends the instruction.
#[tactic(auto, unfolding(crate::specs::Composites::member))]
fn push_instr<A: Allocator>(alloc: A, out: &mut Vec<u8, A>, told: &Told) -> Result<(), AllocError>
    ensures { OnOk result (out.new.items ≡ out.old.items ++ 44 ∷ (member (codes "pc") (decimal told.now.pc)
        ++ 44 ∷ (member (codes "word") (number_or_null told.now.word)
        ++ 44 ∷ member (codes "text") (text_value told.now.pc told.now.word told.now.instr)))) }
{
    out.extend_from_slice(b",\"pc\":")?;
    push_number(out, u64::from(told.pc))?;
    out.extend_from_slice(b",\"word\":")?;
    push_number_or_null(out, told.word)?;
    out.extend_from_slice(b",\"text\":")?;
    push_text(alloc, out, told.pc, told.word, told.instr)
}

// Appends what the step accessed and wrote.
#[tactic(auto, unfolding(crate::specs::Composites::member))]
fn push_effects<A: Allocator>(out: &mut Vec<u8, A>, told: &Told) -> Result<(), AllocError>
    ensures { OnOk result (out.new.items ≡ out.old.items
        ++ 44 ∷ (member (codes "access") (access_value told.now.access)
        ++ 44 ∷ member (codes "register") (register_value told.now.written))) }
{
    out.extend_from_slice(b",\"access\":")?;
    push_access(out, told.access)?;
    out.extend_from_slice(b",\"register\":")?;
    push_register(out, told.written)
}

// Appends what the hart has reserved and where it stands after the step.
#[tactic(auto, unfolding(crate::specs::Composites::member))]
fn push_after<A: Allocator>(out: &mut Vec<u8, A>, told: &Told) -> Result<(), AllocError>
    ensures { OnOk result (out.new.items ≡ out.old.items
        ++ 44 ∷ (member (codes "reserved") (number_or_null told.now.reserved)
        ++ 44 ∷ member (codes "next") (decimal told.now.next))) }
{
    out.extend_from_slice(b",\"reserved\":")?;
    push_number_or_null(out, told.reserved)?;
    out.extend_from_slice(b",\"next\":")?;
    push_number(out, u64::from(told.next))
}

// Appends whether the hart runs after the step, and the closing brace.
#[tactic(auto, unfolding(crate::specs::Composites::member))]
fn push_last<A: Allocator>(out: &mut Vec<u8, A>, told: &Told) -> Result<(), AllocError>
    ensures { OnOk result (out.new.items ≡ out.old.items
        ++ 44 ∷ (member (codes "end") (end_value told.now.state) ++ 125 ∷ [])) }
{
    out.extend_from_slice(b",\"end\":")?;
    push_end(out, told.state)?;
    out.extend_from_slice(b"}")
}

// Appends the members of what the step did.
fn push_rest<A: Allocator>(out: &mut Vec<u8, A>, told: &Told) -> Result<(), AllocError>
    ensures { OnOk result (out.new.items ≡ out.old.items ++ more_members (
        member (codes "access") (access_value told.now.access)
        ∷ member (codes "register") (register_value told.now.written)
        ∷ member (codes "reserved") (number_or_null told.now.reserved)
        ∷ member (codes "next") (decimal told.now.next)
        ∷ member (codes "end") (end_value told.now.state) ∷ [])) }
{
    push_effects(out, told)?;
    push_after(out, told)?;
    push_last(out, told)
}

// Appends the object of choice `k` and of what it did.
#[tactic(auto, unfolding(crate::specs::Line::told_object))]
fn push_told<A: Allocator>(
    alloc: A,
    out: &mut Vec<u8, A>,
    told: &Told,
    k: u64,
) -> Result<(), AllocError>
    ensures { OnOk result (out.new.items ≡ out.old.items ++ told_object told.now k) }
{
    push_choice(out, told, k)?;
    push_refused(out, told)?;
    push_instr(alloc, out, told)?;
    push_rest(out, told)
}

/// Appends the line of choice `k` and of what it did.
#[tactic(auto, unfolding(crate::specs::Line::line_of))]
pub fn push_line<A: Allocator>(
    alloc: A,
    out: &mut Vec<u8, A>,
    told: &Told,
    k: u64,
) -> Result<(), AllocError>
    ensures { OnOk result (out.new.items ≡ out.old.items ++ line_of told.now k) }
{
    push_told(alloc, out, told, k)?;
    out.push(b'\n')?;
    Ok(())
}
