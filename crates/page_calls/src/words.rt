//! The words for people on a source's fault.

ghost use Rattle.std.specs.Prelude.{◌≡◌, [], ◌∷◌};
ghost use Rattle.cmd_asm.specs.Assembly.{file_of};
ghost use Rattle.cmd_asm.specs.Faults.{assembly_status};
ghost use Rattle.page_calls.specs.Replies.{KeepsRest, TellsAnswer, TellsFault, prints_nothing};

use crate::reply::{Reply, answered, refused};
use crate::sources::refused_by;
use asm_statement::Fault;
use byte_io::{MemorySource, Status};
use cmd_asm::{AssemblyFault, assembled_file};
use hint_asm::{SourceText, asm_advice};
use std::alloc::{AllocError, Allocator};

// The path of the source in the explanation of its fault.
const PATH: &str = "source";

// The explanation of a fault, as at a terminal.
fn advice<A: Allocator + Copy>(
    alloc: A,
    source: &[u8],
    fault: Fault,
) -> Result<String<A>, AllocError> {
    let text = match str::from_utf8(source) {
        Ok(text) => text,
        Err(_) => "",
    };
    asm_advice(alloc, &[SourceText { path: PATH, text }], fault)
}

// The reply that explains a fault.
fn explained<A: Allocator + Copy>(alloc: A, source: &[u8], fault: Fault, out: &mut [u8]) -> Reply
    ensures told { TellsFault Status.Refused out.new result }
    ensures kept { KeepsRest out.old out.new result }
{
    match advice(alloc, source, fault) {
        Ok(text) => refused(alloc, &text.as_str(), Status::Refused, out),
        Err(AllocError) => Reply::NoMemory,
    }
}

/// What is wrong with one source, where, and what to write; nothing where it has no fault.
pub fn explain_call<A: Allocator + Copy>(alloc: A, source: &[u8], out: &mut [u8]) -> Reply
    ensures told { TellsAnswer assembly_status (prints_nothing (file_of (source.now ∷ []))) out.new result }
    ensures kept { KeepsRest out.old out.new result }
{
    let mut sources = [MemorySource::new(source)];
    match assembled_file(alloc, &mut sources) {
        Ok(_) => answered(&[], Status::Done, out),
        Err(AssemblyFault::Wrong(fault)) => explained(alloc, source, fault, out),
        Err(fault) => refused_by(alloc, fault, out),
    }
}
