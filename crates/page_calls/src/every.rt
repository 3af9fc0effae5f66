//! `explore`: every schedule of a program.

ghost use Rattle.page_calls.specs.Explored.{FindsEvery, TellsExplored};
ghost use Rattle.page_calls.specs.Replies.{KeepsRest};

use crate::reply::{Reply, answered};
use crate::running::refused_by;
use byte_io::{MemorySource, Unheard};
use cmd_explore::{Explored, Form, Question, explore_engine};
use program_open::CommandFault;
use std::alloc::Allocator;

// What is found of every schedule of an ELF file.
fn explored<A: Allocator + Copy>(
    alloc: A,
    question: Question,
    inputs: &[u32],
    program: &[u8],
) -> Result<Explored<A>, CommandFault>
    ensures found { FindsEvery question inputs.now program.now result }
{
    let mut program = MemorySource::new(program);
    explore_engine(
        alloc,
        inputs,
        Form::Text,
        question,
        &mut program,
        &mut Unheard,
    )
}

/// `explore`: whether some schedule of an ELF file fails or hangs. The status is that of the answer.
#[tactic(auto, using(crate::proofs::ShownLemmas::explored_told))]
pub fn explore_call<A: Allocator + Copy>(
    alloc: A,
    question: Question,
    inputs: &[u32],
    program: &[u8],
    out: &mut [u8],
) -> Reply
    ensures told { TellsExplored A question inputs.now program.now out.new result }
    ensures kept { KeepsRest out.old out.new result }
{
    match explored(alloc, question, inputs, program) {
        Ok(found) => answered(&found.text, found.status, out),
        Err(fault) => refused_by(alloc, fault, out),
    }
}
