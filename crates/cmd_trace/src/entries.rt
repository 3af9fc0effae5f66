//! Writes the traced choices.
ghost use Rattle.std.specs.Prelude.{◌≡◌, ℕ, ◌-◌, ◌^◌, ◌<◌, ◌≤◌, [], List, Option, IfOk, IfErr};
ghost use Rattle.machine.specs.declared.choice.Choice.{Choice};
ghost use Rattle.cmd_trace.specs.Cursor.{Has};
ghost use Rattle.program_open.specs.Answers.{Begins};
ghost use Rattle.program_open.specs.CommandFaults.{IfHalts};
ghost use Rattle.cmd_trace.specs.Output.{SoFar};
ghost use Rattle.cmd_trace.specs.Teller.{place};
ghost use Rattle.cmd_trace.specs.Trace.{told_entries};

use crate::output::write_entry;
use crate::page::Page;
use crate::plan::told_count;
use crate::teller::Teller;
use byte_io::Sink;
use program_open::CommandFault;
use std::alloc::Allocator;
use trace_text::Span;

/// Appends the texts of the traced choices to the output, the first of which is the next of a
/// teller.
pub(crate) fn write_entries<A: Allocator + Copy, K: Sink>(
    alloc: A,
    page: &Page<'_, A>,
    span: Span,
    teller: &mut Teller<'_, A>,
    buffer: &mut Vec<u8, A>,
    sink: &mut K,
) -> Result<(), CommandFault>
    requires order { span.from ≤ span.to }
    requires sink_counts { K.failures sink.old < 2 ^ 64 - 1 }
    ensures taken { IfOk result (λ _. (left : List Choice) (all : List ℕ) (start : Option (List ℕ))
        → Has teller.old.cursor left → SoFar all start (K.held sink.old) buffer.old.items
        (told_entries page.now span (place teller.old.machine teller.old.endings) left)
        → SoFar all start (K.held sink.new) buffer.new.items []) }
    ensures count { IfOk result (λ _. K.failures sink.new ≡ K.failures sink.old) }
    ensures begun { IfErr result (λ _. (left : List Choice) (all : List ℕ) (start : Option (List ℕ))
        → Has teller.old.cursor left → SoFar all start (K.held sink.old) buffer.old.items
        (told_entries page.now span (place teller.old.machine teller.old.endings) left)
        → Begins all start (K.held sink.new)) }
    ensures fault { IfErr result (λ fault. IfHalts fault (K.failures sink.old < K.failures sink.new)) }
{
    'choices: for i in 0..told_count(span) {
        let k = span.from + i;
        let Some(explained) = teller.next(k) else {
            return Ok(());
        };
        match write_entry(alloc, page, &explained, k, buffer, sink) {
            Ok(()) => {}
            Err(fault) => return Err(fault),
        }
    }
    Ok(())
}
