//! The harts of a head line.

ghost use Rattle.std.specs.Prelude.{◌≡◌, ◌++◌, ◌∷◌, [], codes, decimal, map, OnOk};
ghost use Rattle.hart_step.specs.Hart.{hart_of, registers_of};
ghost use Rattle.trace_text.specs.Composites.{member, array, more_elements};
ghost use Rattle.trace_text.specs.Scalars.{number_or_null};
ghost use Rattle.trace_text.specs.Head.{hart_object, head_registers, registers_value, then_of};
ghost use Rattle.trace_text.specs.Values.{end_value};

use crate::head::HartThen;
use crate::scalar::{push_number, push_number_or_null};
use crate::values::push_end;
use hart_step::Hart;
use std::alloc::{AllocError, Allocator};

// Appends the registers behind x0, and the closing bracket.
#[tactic(auto, using(crate::proofs::HeadLemmas::registers_more, crate::proofs::HeadLemmas::registers_done))]
fn push_more_registers<A: Allocator>(out: &mut Vec<u8, A>, hart: &Hart) -> Result<(), AllocError>
    ensures { OnOk result (out.new.items
        ≡ out.old.items ++ head_registers (registers_of hart.now.registers) 1 31) }
{
    'registers: for number in 1..32 {
        out.push(b',')?;
        push_number(out, u64::from(hart.registers[number]))?;
    }
    out.push(b']')?;
    Ok(())
}

// Appends the registers.
#[tactic(auto, unfolding(crate::specs::Head::registers_value))]
fn push_registers<A: Allocator>(out: &mut Vec<u8, A>, hart: &Hart) -> Result<(), AllocError>
    ensures { OnOk result (out.new.items
        ≡ out.old.items ++ registers_value (registers_of hart.now.registers)) }
{
    out.push(b'[')?;
    push_number(out, u64::from(hart.registers[0]))?;
    push_more_registers(out, hart)
}

// Appends where a hart stands, and its registers.
#[tactic(auto, unfolding(crate::specs::Composites::member))]
fn push_place<A: Allocator>(out: &mut Vec<u8, A>, hart: &Hart) -> Result<(), AllocError>
    ensures { OnOk result (out.new.items ≡ out.old.items
        ++ 123 ∷ (member (codes "pc") (decimal hart.now.pc)
        ++ 44 ∷ member (codes "registers") (registers_value (registers_of hart.now.registers)))) }
{
    out.extend_from_slice(b"{\"pc\":")?;
    push_number(out, u64::from(hart.pc))?;
    out.extend_from_slice(b",\"registers\":")?;
    push_registers(out, hart)
}

// Appends what a hart has reserved and whether it runs, and the closing brace.
#[tactic(auto, unfolding(crate::specs::Composites::member))]
fn push_state<A: Allocator>(out: &mut Vec<u8, A>, hart: &HartThen) -> Result<(), AllocError>
    ensures { OnOk result (out.new.items ≡ out.old.items
        ++ 44 ∷ (member (codes "reserved") (number_or_null hart.now.reserved)
        ++ 44 ∷ (member (codes "end") (end_value hart.now.hart.state) ++ 125 ∷ []))) }
{
    out.extend_from_slice(b",\"reserved\":")?;
    push_number_or_null(out, hart.reserved)?;
    out.extend_from_slice(b",\"end\":")?;
    push_end(out, hart.hart.state)?;
    out.extend_from_slice(b"}")
}

// Appends a hart.
#[tactic(auto, unfolding(crate::specs::Head::hart_object))]
fn push_hart<A: Allocator>(out: &mut Vec<u8, A>, hart: &HartThen) -> Result<(), AllocError>
    ensures { OnOk result (out.new.items ≡ out.old.items ++ hart_object (then_of hart.now)) }
{
    push_place(out, &hart.hart)?;
    push_state(out, hart)
}

// Appends harts behind a first, each behind a comma, and the closing bracket.
fn push_more_harts<A: Allocator>(out: &mut Vec<u8, A>, harts: &[HartThen]) -> Result<(), AllocError>
    ensures { OnOk result (out.new.items
        ≡ out.old.items ++ more_elements (map hart_object (map then_of harts.now))) }
{
    'harts: for hart in harts {
        out.push(b',')?;
        push_hart(out, hart)?;
    }
    out.push(b']')?;
    Ok(())
}

/// Appends the harts.
pub(crate) fn push_harts<A: Allocator>(
    out: &mut Vec<u8, A>,
    harts: &[HartThen],
) -> Result<(), AllocError>
    ensures { OnOk result (out.new.items
        ≡ out.old.items ++ array (map hart_object (map then_of harts.now))) }
{
    let [first, rest @ ..] = harts else {
        return out.extend_from_slice(b"[]");
    };
    out.push(b'[')?;
    push_hart(out, first)?;
    push_more_harts(out, rest)
}
