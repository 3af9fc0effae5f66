//! Runs `gdb`.

use byte_io::{ReaderSource, Status, Unheard};
use cli_orders::DebugOrder;
use cli_report::{
    Audience, RunChoices, RunFiles, StandardOutput, inputs_said, open_run, out_of_memory, say_why,
};
use cmd_gdb::{DebugEngineFault, gdb_engine};
use program_open::ProgramForm;
use std::io::{BufReader, Input};
use std::rt::Files;

/// Answers the packets of standard input, each as it comes. The program, and the file of the
/// choices if there is one, are opened before either is read. Nothing but packets and
/// acknowledgments is written to standard output.
pub fn obey_gdb<R: Files + AllocGlobal + Print + Eprint + Input>(
    rt: &R,
    audience: Audience,
    order: &DebugOrder,
    choices: RunChoices<'_>,
) -> Result<Status, Status> {
    let inputs = inputs_said(rt, order.inputs)?;
    let (mut program, mut source) = open_run(rt, audience, order.file, choices)?;
    let Ok(reader) = BufReader::new(rt.alloc(), rt.reader()) else {
        return Err(out_of_memory(rt));
    };
    let mut packets = ReaderSource::new(reader);
    let mut sink = StandardOutput::new(rt);
    let answer = gdb_engine(
        rt.alloc(),
        &inputs,
        &mut program,
        &mut source,
        &mut packets,
        &mut sink,
        &mut Unheard,
    );
    let files = RunFiles {
        program: order.file,
        form: ProgramForm::Elf,
        choices,
        harts: inputs.len(),
    };
    match answer {
        Ok(status) => Ok(status),
        Err(DebugEngineFault::Answers) if !sink.has_reader() => Ok(Status::Done),
        Err(fault) => Err(tell(rt, audience, files, fault)),
    }
}

// Reports why the session didn't begin, or ended early.
fn tell<R: Files + AllocGlobal + Eprint>(
    rt: &R,
    audience: Audience,
    files: RunFiles<'_>,
    fault: DebugEngineFault,
) -> Status {
    let DebugEngineFault::Refused(why) = fault else {
        // If standard error is closed, only the status shows it.
        let _ = eprintln!(rt; "rvcons: {fault}");
        return fault.status();
    };
    say_why(rt, audience, files, why)
}
