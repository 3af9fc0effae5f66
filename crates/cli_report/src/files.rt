//! Opens the files of a run, and reports why a command that reads them gives no answer.

ghost use Rattle.std.specs.Prelude.{◌≡◌, ◌≢◌, IfErr, IfOk};
ghost use Rattle.program_open.specs.CommandFaults.{status_of_fault};

use crate::audience::Audience;
use crate::either_source::EitherSource;
use crate::explain::{RunFiles, explain_run};
use crate::report::{cannot_open, cannot_read, out_of_memory, say};
use crate::run_choices::RunChoices;
use byte_io::{MemorySource, ReadFault, ReaderSource, Source, Status, read_all};
use program_open::{CommandFault, Input};
use std::fs;
use std::io::{self, BufReader};
use std::os::unix::fs::MetadataExt;
use std::rt::Files;

/// Opens a file to read, or reports that it can't be opened.
pub fn open_one<R: Files + AllocGlobal + Eprint>(
    rt: &R,
    audience: Audience,
    path: &str,
) -> Result<ReaderSource<R::File>, Status>
    ensures unfailed { IfOk result (λ file. ⟦<ReaderSource<R::File> as Source>⟧.failures file ≡ 0) }
    ensures err { IfErr result (λ status. status ≢ Status.Done) }
{
    match fs::open(rt, path) {
        Ok(file) => Ok(ReaderSource::new(file)),
        Err(error) => Err(cannot_open(rt, audience, path, &error)),
    }
}

/// Opens a program and the text beside it, or reports which can't be opened. Neither is read before
/// both are open.
pub fn open_both<R: Files + AllocGlobal + Eprint>(
    rt: &R,
    audience: Audience,
    program: &str,
    text: &str,
) -> Result<(ReaderSource<R::File>, ReaderSource<R::File>), Status>
    ensures program { IfOk result (λ files.
        ⟦<ReaderSource<R::File> as Source>⟧.failures files.0 ≡ 0) }
    ensures text { IfOk result (λ files.
        ⟦<ReaderSource<R::File> as Source>⟧.failures files.1 ≡ 0) }
    ensures err { IfErr result (λ status. status ≢ Status.Done) }
{
    let first = open_one(rt, audience, program)?;
    let second = open_one(rt, audience, text)?;
    Ok((first, second))
}

/// The choices of a run, from a file or from memory.
pub type ChoiceSource<'a, F> = EitherSource<ReaderSource<F>, MemorySource<'a>>;

// The choices of a run, open to be read, or the report of why they can't be.
fn open_choices<'a, R: Files + AllocGlobal + Eprint>(
    rt: &R,
    audience: Audience,
    choices: RunChoices<'a>,
) -> Result<ChoiceSource<'a, R::File>, Status>
    ensures unfailed { IfOk result (λ source.
        ⟦<EitherSource<ReaderSource<R::File>, MemorySource<'a>> as Source>⟧.failures source ≡ 0) }
    ensures err { IfErr result (λ status. status ≢ Status.Done) }
{
    match choices {
        RunChoices::File(path) => Ok(EitherSource::First(open_one(rt, audience, path)?)),
        RunChoices::Held { text, .. } => Ok(EitherSource::Second(MemorySource::new(text))),
    }
}

/// Opens a program, and the file of its choices if they are in one, or reports which can't be
/// opened. Neither is read before both are open.
pub fn open_run<'a, R: Files + AllocGlobal + Eprint>(
    rt: &R,
    audience: Audience,
    program: &str,
    choices: RunChoices<'a>,
) -> Result<(ReaderSource<R::File>, ChoiceSource<'a, R::File>), Status>
    ensures program { IfOk result (λ files.
        ⟦<ReaderSource<R::File> as Source>⟧.failures files.0 ≡ 0) }
    ensures choices { IfOk result (λ files.
        ⟦<EitherSource<ReaderSource<R::File>, MemorySource<'a>> as Source>⟧.failures files.1 ≡ 0) }
    ensures err { IfErr result (λ status. status ≢ Status.Done) }
{
    let first = open_one(rt, audience, program)?;
    let second = open_choices(rt, audience, choices)?;
    Ok((first, second))
}

/// Reads standard input to its end, or reports that it can't be read.
pub fn read_input_to_end<R: AllocGlobal + Eprint + io::Input>(rt: &R) -> Result<Vec<u8>, Status>
    ensures err { IfErr result (λ status. status ≢ Status.Done) }
{
    let Ok(reader) = BufReader::new(rt.alloc(), rt.reader()) else {
        return Err(out_of_memory(rt));
    };
    match read_all(rt.alloc(), &mut ReaderSource::new(reader)) {
        Ok(bytes) => Ok(bytes),
        Err(ReadFault::Device) => Err(cannot_read(rt, "-")),
        Err(ReadFault::Memory) => Err(out_of_memory(rt)),
    }
}

/// Reports why a command gives no answer, and explains it to a person.
pub fn say_why<R: Files + AllocGlobal + Eprint>(
    rt: &R,
    audience: Audience,
    files: RunFiles<'_>,
    fault: CommandFault,
) -> Status
    ensures { result ≡ status_of_fault fault }
{
    match fault {
        CommandFault::Read(Input::File) => cannot_read(rt, files.program),
        CommandFault::Read(Input::Choices | Input::History) => {
            cannot_read(rt, files.choices.name())
        }
        fault => {
            let status = say(rt, fault);
            explain_run(rt, audience, files, fault);
            status
        }
    }
}

/// Whether two paths lead to the same regular file, by its device and its number there. A file that
/// doesn't exist is no such file.
pub fn is_same_file(rt: &impl Files, one: &str, other: &str) -> bool {
    match (fs::metadata(rt, one), fs::metadata(rt, other)) {
        (Ok(one), Ok(other)) => {
            one.is_file() && one.dev() == other.dev() && one.ino() == other.ino()
        }
        _ => false,
    }
}
