//! Runs `asm`.

ghost use Rattle.std.specs.Prelude.{◌≡◌, ◌≢◌, ◌-◌, ◌^◌, ◌<◌, All, IfErr, IfOk, length, map};

use crate::sources::{explain_entry, explain_no_text, explain_sources};
use byte_io::{ReaderSource, Source, Status};
use cli_orders::AsmOrder;
use cli_report::{
    Audience, OutputFault, OutputFile, PROGRAM_MODE, StandardOutput, cannot_open, cannot_read,
    cannot_write, is_same_file, out_of_memory, would_overwrite,
};
use cmd_asm::{AssemblyFault, file_engine, listing_engine};
use std::fs;
use std::rt::Files;

// Opens the sources, in order.
fn open_sources<R: Files + AllocGlobal + Print + Eprint>(
    rt: &R,
    audience: Audience,
    paths: &[&str],
) -> Result<Vec<ReaderSource<R::File>>, Status>
    ensures unfailed { IfOk result (λ sources. All (λ n. n < 2 ^ 64 - 1)
        (map ⟦<ReaderSource<R::File> as Source>⟧.failures sources.items)) }
    ensures count { IfOk result (λ sources. length sources.items ≡ length paths.now) }
    ensures err { IfErr result (λ status. status ≢ Status.Done) }
{
    let mut sources = Vec::new(rt.alloc());
    'paths: for path in paths {
        let file = match fs::open(rt, *path) {
            Ok(file) => file,
            Err(error) => return Err(cannot_open(rt, audience, path, &error)),
        };
        let Ok(()) = sources.push(ReaderSource::new(file)) else {
            return Err(out_of_memory(rt));
        };
    }
    Ok(sources)
}

// Whether a path leads to a file that is a source.
fn is_a_source(rt: &impl Files, order: &AsmOrder, path: &str) -> bool {
    'sources: for source in &order.sources {
        if is_same_file(rt, source, path) {
            return true;
        }
    }
    false
}

/// Assembles sources, all of which are opened before any is read. An output file is opened once its
/// bytes are made; one of the sources is never written over.
pub fn obey_asm<R: Files + AllocGlobal + Print + Eprint>(
    rt: &R,
    audience: Audience,
    order: &AsmOrder,
) -> Status {
    let mut sources = match open_sources(rt, audience, order.sources.as_slice()) {
        Ok(sources) => sources,
        Err(status) => return status,
    };
    match order.out {
        None => {
            let mut sink = StandardOutput::new(rt);
            match listing_engine(rt.alloc(), &mut sources, &mut sink) {
                Ok(status) => status,
                Err(AssemblyFault::Write) if !sink.has_reader() => Status::Done,
                Err(fault) => tell(rt, audience, order, fault),
            }
        }
        Some(out) if is_a_source(rt, order, out) => would_overwrite(rt, out),
        Some(out) => {
            let mut file = OutputFile::new(rt, out, PROGRAM_MODE);
            match file_engine(rt.alloc(), &mut sources, &mut file) {
                Ok(status) => match file.keep() {
                    Ok(()) => {
                        explain_entry(rt, audience, order.sources.as_slice());
                        status
                    }
                    Err(fault) => tell_unwritten(rt, out, Some(fault)),
                },
                Err(fault) => {
                    let unopened = file.fault();
                    file.forget();
                    match fault {
                        AssemblyFault::Write => tell_unwritten(rt, out, unopened),
                        fault => tell(rt, audience, order, fault),
                    }
                }
            }
        }
    }
}

// Reports that the output file can't be written, or that opening it is out of memory.
fn tell_unwritten<R: Eprint>(rt: &R, path: &str, fault: Option<OutputFault>) -> Status {
    match fault {
        Some(OutputFault::Memory) => out_of_memory(rt),
        Some(OutputFault::Refused) | None => cannot_write(rt, path),
    }
}

// The path of the source at an index.
fn path_at<'a>(order: &AsmOrder<'a>, place: usize) -> &'a str {
    match order.sources.get(place) {
        Some(path) => *path,
        None => "-",
    }
}

// Reports why sources give no output.
fn tell<R: Files + AllocGlobal + Eprint>(
    rt: &R,
    audience: Audience,
    order: &AsmOrder,
    fault: AssemblyFault,
) -> Status {
    match fault {
        AssemblyFault::Read(place) => cannot_read(rt, path_at(order, place)),
        AssemblyFault::NotText(place) => {
            let path = path_at(order, place);
            let status = cannot_read(rt, path);
            explain_no_text(rt, audience, path);
            status
        }
        fault => {
            // If standard error is closed, only the status shows it.
            let _ = eprintln!(rt; "rvcons: {fault}");
            if let AssemblyFault::Wrong(wrong) = fault {
                explain_sources(rt, audience, order.sources.as_slice(), wrong);
            }
            fault.status()
        }
    }
}
