//! `schedule` and `shrink`: the choices of a run, as text.

ghost use Rattle.cmd_schedule.specs.Seeds.{choices_answer};
ghost use Rattle.page_calls.specs.Replies.{KeepsRest, TellsAnswer};
ghost use Rattle.page_calls.specs.Shown.{TellsShrunk};
ghost use Rattle.program_open.specs.CommandFaults.{status_of_fault};

use crate::reply::{Reply, answered};
use crate::running::refused_by;
use byte_io::{MemorySource, Unheard};
use cmd_schedule::{SeedPlan, seed_engine};
use cmd_shrink::shrink_engine;
use outcome::Expect;
use std::alloc::Allocator;

/// `schedule`: the choices that a seed draws in a run of an ELF file.
pub fn schedule_call<A: Allocator + Copy>(
    alloc: A,
    plan: SeedPlan,
    inputs: &[u32],
    program: &[u8],
    out: &mut [u8],
) -> Reply
    ensures told { TellsAnswer status_of_fault
        (choices_answer plan inputs.now program.now) out.new result }
    ensures kept { KeepsRest out.old out.new result }
{
    let mut program = MemorySource::new(program);
    match seed_engine(alloc, inputs, plan, &mut program) {
        Ok((text, status)) => answered(text.as_bytes(), status, out),
        Err(fault) => refused_by(alloc, fault, out),
    }
}

/// `shrink`: a minimal list of an ELF file's choices whose run fails in the same way.
#[tactic(auto, using(crate::proofs::ShownLemmas::shrunk_told))]
pub fn shrink_call<A: Allocator + Copy>(
    alloc: A,
    expect: Expect,
    inputs: &[u32],
    program: &[u8],
    choices: &[u8],
    out: &mut [u8],
) -> Reply
    ensures told { TellsShrunk expect inputs.now program.now choices.now out.new result }
    ensures kept { KeepsRest out.old out.new result }
{
    let mut program = MemorySource::new(program);
    let mut choices = MemorySource::new(choices);
    let left = &mut Unheard;
    match shrink_engine(alloc, inputs, expect, &[], &mut program, &mut choices, left) {
        Ok((text, status)) => answered(text.as_bytes(), status, out),
        Err(fault) => refused_by(alloc, fault, out),
    }
}
