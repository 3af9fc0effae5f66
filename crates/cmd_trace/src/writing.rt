//! The whole output of a trace.
ghost use Rattle.std.specs.Prelude.{◌≡◌, ◌-◌, ◌^◌, ◌<◌, ◌≤◌, ◌++◌, List, Ok, OnOk, IfOk, IfErr, length};
ghost use Rattle.std.specs.Io.KnownBytes.{Appends};
ghost use Rattle.machine.specs.State.{state};
ghost use Rattle.machine.specs.declared.choice.Choice.{Choice};
ghost use Rattle.sched_text.specs.Reading.{choices_read};
ghost use Rattle.program_open.specs.Answers.{Begins};
ghost use Rattle.program_open.specs.CommandFaults.{IfHalts};
ghost use Rattle.cmd_trace.specs.Trace.{trace_head, trace_text};

use crate::entries::write_entries;
use crate::output::flush;
use crate::page::Page;
use crate::plan::{TraceForm, TracePlan, span_of};
use crate::teller::Teller;
use byte_io::Sink;
use machine::Inputs;
use program_named::{NamedProgram, NamedText};
use program_open::CommandFault;
use std::alloc::{AllocError, Allocator};
use trace_text::{Span, push_head, push_head_rows};

// Appends the head of the trace, in the world before the first traced choice.
fn push_head_of<A: Allocator + Copy>(
    alloc: A,
    form: TraceForm,
    inputs: &Inputs,
    span: Span,
    program: &NamedProgram<A>,
    teller: &Teller<'_, A>,
    buffer: &mut Vec<u8, A>,
) -> Result<(), AllocError>
    ensures { OnOk result (buffer.new.items ≡ buffer.old.items ++ trace_head form program.now.image.entry inputs.now span
        program.now.symbols.items (state teller.now.machine)) }
{
    match form {
        TraceForm::Lines => {
            let harts = teller.harts(alloc)?;
            push_head(
                buffer,
                program.image.entry(),
                inputs.words(),
                span,
                &program.symbols,
                &harts,
            )
        }
        TraceForm::Table | TraceForm::Shared => push_head_rows(buffer, inputs.harts()),
    }
}

/// Writes the trace of a run under a choice text with `count` choices. After a fault a beginning of
/// it has been written.
pub(crate) fn write_trace<A: Allocator + Copy, K: Sink>(
    alloc: A,
    plan: TracePlan,
    run: &NamedText<A>,
    count: u64,
    sink: &mut K,
) -> Result<(), CommandFault>
    requires { K.failures sink.old < 2 ^ 64 - 1 }
    ensures told { IfOk result (λ _. (choices : List Choice) → choices_read (length run.now.inputs) run.now.text.items ≡ Ok choices
        → count ≡ length choices → Appends (K.held sink.old) (K.held sink.new)
        (trace_text plan run.now.program.image run.now.program.symbols.items run.now.inputs choices)) }
    ensures begun { IfErr result (λ _. (choices : List Choice) → choices_read (length run.now.inputs) run.now.text.items ≡ Ok choices
        → count ≡ length choices
        → Begins (trace_text plan run.now.program.image run.now.program.symbols.items run.now.inputs choices)
        (K.held sink.old) (K.held sink.new)) }
    ensures fault { IfErr result (λ fault. IfHalts fault (K.failures sink.old < K.failures sink.new)) }
{
    let mut teller = match Teller::new(alloc, &run.program.image, &run.inputs, &run.text) {
        Ok(teller) => teller,
        Err(AllocError) => return Err(CommandFault::Memory),
    };
    let span = span_of(plan, count);
    teller.skip(span.from);
    let mut buffer = Vec::new(alloc);
    match push_head_of(
        alloc,
        plan.form,
        &run.inputs,
        span,
        &run.program,
        &teller,
        &mut buffer,
    ) {
        Ok(()) => {}
        Err(AllocError) => return Err(CommandFault::Memory),
    }
    let page = Page {
        form: plan.form,
        harts: run.inputs.harts(),
        symbols: &run.program.symbols,
        word: plan.word,
    };
    match write_entries(alloc, &page, span, &mut teller, &mut buffer, sink) {
        Ok(()) => {}
        Err(fault) => return Err(fault),
    }
    match flush(&mut buffer, sink) {
        Ok(()) => Ok(()),
        Err(fault) => Err(fault),
    }
}
