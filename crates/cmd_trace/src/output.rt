//! The output, written in pieces.
ghost use Rattle.std.specs.Prelude.{◌≡◌, ◌-◌, ◌^◌, ◌<◌, ◌++◌, ℕ, List, [], Option, OnOk, IfOk, IfErr};
ghost use Rattle.program_open.specs.Answers.{Begins};
ghost use Rattle.program_open.specs.CommandFaults.{IfHalts};
ghost use Rattle.cmd_trace.specs.Output.{SoFar};
ghost use Rattle.cmd_trace.specs.Trace.{choice_entry};

use crate::page::Page;
use crate::plan::{TraceForm, is_told};
use byte_io::{Sink, write_all};
use program_open::CommandFault;
use std::alloc::{AllocError, Allocator};
use trace_steps::Explained;
use trace_text::{push_line, push_row};

/// The least number of buffered bytes before a write.
const PIECE: usize = 0x1_0000;

// Appends the text of choice `k`.
fn push_entry<A: Allocator + Copy>(
    alloc: A,
    buffer: &mut Vec<u8, A>,
    page: &Page<'_, A>,
    explained: &Explained,
    k: u64,
) -> Result<(), AllocError>
    ensures { OnOk result (buffer.new.items ≡ buffer.old.items ++ choice_entry page.now explained.now k) }
{
    if !is_told(page.word, explained.told.access) {
        return Ok(());
    }
    match page.form {
        TraceForm::Lines => push_line(alloc, buffer, &explained.told, k),
        TraceForm::Shared if explained.told.access.is_none() => Ok(()),
        TraceForm::Table | TraceForm::Shared => {
            push_row(alloc, buffer, page.symbols, explained, k, page.harts)
        }
    }
}

/// Writes the buffer.
pub(crate) fn flush<A: Allocator, K: Sink>(
    buffer: &mut Vec<u8, A>,
    sink: &mut K,
) -> Result<(), CommandFault>
    requires { K.failures sink.old < 2 ^ 64 - 1 }
    ensures sent { IfOk result (λ _. (all : List ℕ) (start : Option (List ℕ)) (rest : List ℕ)
        → SoFar all start (K.held sink.old) buffer.old.items rest
        → SoFar all start (K.held sink.new) buffer.new.items rest) }
    ensures empty { IfOk result (λ _. buffer.new.items ≡ []) }
    ensures count { IfOk result (λ _. K.failures sink.new ≡ K.failures sink.old) }
    ensures begun { IfErr result (λ _. (all : List ℕ) (start : Option (List ℕ)) (rest : List ℕ)
        → SoFar all start (K.held sink.old) buffer.old.items rest → Begins all start (K.held sink.new)) }
    ensures fault { IfErr result (λ fault. IfHalts fault (K.failures sink.old < K.failures sink.new)) }
{
    match write_all(sink, buffer) {
        Ok(()) => {
            buffer.clear();
            Ok(())
        }
        Err(_) => Err(CommandFault::Write),
    }
}

/// Appends the text of choice `k` to the buffer, and writes the buffer once it is a piece.
pub(crate) fn write_entry<A: Allocator + Copy, K: Sink>(
    alloc: A,
    page: &Page<'_, A>,
    explained: &Explained,
    k: u64,
    buffer: &mut Vec<u8, A>,
    sink: &mut K,
) -> Result<(), CommandFault>
    requires { K.failures sink.old < 2 ^ 64 - 1 }
    ensures taken { IfOk result (λ _. (all : List ℕ) (start : Option (List ℕ)) (rest : List ℕ)
        → SoFar all start (K.held sink.old) buffer.old.items (choice_entry page.now explained.now k ++ rest)
        → SoFar all start (K.held sink.new) buffer.new.items rest) }
    ensures count { IfOk result (λ _. K.failures sink.new ≡ K.failures sink.old) }
    ensures begun { IfErr result (λ _. (all : List ℕ) (start : Option (List ℕ)) (rest : List ℕ)
        → SoFar all start (K.held sink.old) buffer.old.items (choice_entry page.now explained.now k ++ rest)
        → Begins all start (K.held sink.new)) }
    ensures fault { IfErr result (λ fault. IfHalts fault (K.failures sink.old < K.failures sink.new)) }
{
    match push_entry(alloc, buffer, page, explained, k) {
        Ok(()) => {}
        Err(AllocError) => return Err(CommandFault::Memory),
    }
    if buffer.len() < PIECE {
        return Ok(());
    }
    match flush(buffer, sink) {
        Ok(()) => Ok(()),
        Err(fault) => Err(fault),
    }
}
