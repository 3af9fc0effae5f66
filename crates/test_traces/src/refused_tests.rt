//! Each request of a trace refused in turn, once and for good.
use crate::worked::{EACH_ACCESS, file_of};
use byte_io::{MemorySink, MemorySource, Status};
use cmd_trace::{TraceForm, TracePlan, trace_engine};
use program_open::{CommandFault, ProgramForm};
use std::alloc::{AllocError, Allocator, Global};
use test_refusing::{Call, tried};

// A trace of this file's run.
#[derive(Clone, Copy)]
struct Tracing<'a> {
    file: &'a [u8],
    form: TraceForm,
    lines: usize,
}

// What a trace answers, and what it has written, which is kept by `host`.
fn traced<A: Allocator + Copy>(
    alloc: A,
    host: Global,
    tracing: &Tracing,
) -> (Result<Status, CommandFault>, MemorySink<Global>) {
    let plan = TracePlan {
        form: tracing.form,
        from: 1,
        to: None,
        word: None,
    };
    let mut program = MemorySource::new(tracing.file);
    let mut choices = MemorySource::new(b"0*3 1*2 0*8 1!");
    let mut sink = MemorySink::new(host);
    let answer = trace_engine(
        alloc,
        ProgramForm::Elf,
        plan,
        &[7, 9],
        &mut program,
        &mut choices,
        &mut sink,
    );
    (answer, sink)
}

impl<'a> Call for Tracing<'a> {
    fn answer<A: Allocator + Copy>(&self, alloc: A, host: Global) -> Result<bool, AllocError> {
        let (answer, sink) = traced(alloc, host, self);
        let lines = sink.bytes().iter().filter(|byte| **byte == b'\n').count();
        match answer {
            Ok(status) => Ok(status == Status::Done && lines == self.lines),
            Err(CommandFault::Memory) if lines == 0 => Err(AllocError),
            Err(_) => Ok(false),
        }
    }
}

// Whether a trace in this form, of so many lines, tells want of memory; None where there is no file
// for it.
fn is_told(host: Global, form: TraceForm, lines: usize) -> Option<bool> {
    let file = file_of(host, EACH_ACCESS)?;
    let tracing = Tracing {
        file: &file,
        form,
        lines,
    };
    Some(tried(host, &tracing) == Ok(()))
}

#[test]
fn trace_tells_want_of_memory(rt: HostRuntime) {
    for (form, lines) in [
        (TraceForm::Lines, 14),
        (TraceForm::Table, 15),
        (TraceForm::Shared, 11),
    ] {
        assert!(rt;
            is_told(rt.alloc(), form, lines) == Some(true),
            "{lines} lines"
        );
    }
}
