//! Reports faults on standard error.

ghost use Rattle.std.specs.Prelude.{◌≡◌, ◌≢◌};
ghost use Rattle.program_open.specs.CommandFaults.{status_of_fault};

use crate::audience::Audience;
use crate::explain::explain_path;
use byte_io::Status;
use cli_args::LineFault;
use object_library::KIND_NAMES;
use program_open::CommandFault;
use std::alloc::AllocError;
use std::io;

// Where clap tells to write `--` before a word that begins with `-`. For a value of an option, as
// in `--inputs -1`, that is wrong.
const TIP: &str = "\n  tip: to pass '";

/// Why `--hangs` isn't taken beside `--must-exit`.
pub const HANGS_OR_MUST_EXIT: &str =
    "--must-exit takes each hart that still runs for a failure, and --hangs decides whether it can stop: they don't go together";

/// Reports that memory is exhausted.
pub fn out_of_memory(rt: &impl Eprint) -> Status
    ensures { result ≡ Status.NoMemory }
{
    say(rt, CommandFault::Memory)
}

/// Reports why a command gives no answer.
pub fn say(rt: &impl Eprint, fault: CommandFault) -> Status
    ensures { result ≡ status_of_fault fault }
{
    // If standard error is closed, only the status shows it.
    let _ = eprintln!(rt; "rvcons: {fault}");
    fault.status()
}

/// Reports that a file can't be opened or read.
pub fn cannot_read(rt: &impl Eprint, path: &str) -> Status
    ensures { result ≡ Status.Refused }
{
    let _ = eprintln!(rt; "rvcons: cannot read {path}");
    Status::Refused
}

/// Reports that a file can't be written.
pub fn cannot_write(rt: &impl Eprint, path: &str) -> Status
    ensures { result ≡ Status.Refused }
{
    let _ = eprintln!(rt; "rvcons: cannot write {path}");
    Status::Refused
}

/// Reports that a file isn't written, since it is one of those that are read.
pub fn would_overwrite(rt: &impl Eprint, path: &str) -> Status
    ensures { result ≡ Status.Refused }
{
    let _ = eprintln!(rt; "rvcons: cannot write {path}: it is an input");
    Status::Refused
}

/// Reports that a file can't be opened: out of memory, or another reason, which is explained to a
/// person.
pub fn cannot_open(rt: &impl Eprint, audience: Audience, path: &str, error: &io::Error) -> Status
    ensures { result ≢ Status.Done }
{
    if error.kind() == io::ErrorKind::OutOfMemory {
        return out_of_memory(rt);
    }
    let status = cannot_read(rt, path);
    explain_path(rt, audience, path, error);
    status
}

/// Reports why a command line gives no order, or prints the help or the version that it asks for.
pub fn refuse(rt: &(impl Print + Eprint), fault: &LineFault) -> Status {
    match fault {
        LineFault::Told(error) => {
            let printed = error.print(rt);
            if error.use_stderr() {
                Status::BadLine
            } else {
                match printed {
                    Err(error) if error.kind() != io::ErrorKind::BrokenPipe => {
                        say(rt, CommandFault::Write)
                    }
                    Ok(()) | Err(_) => Status::Done,
                }
            }
        }
        LineFault::NoCommand => bad_line(
            rt,
            "no command is given; write one, as rvcons run, or see --help",
        ),
        LineFault::BadInputs => bad_line(
            rt,
            "--inputs takes a decimal number below 2^32 for each hart, with commas between, as 7,9",
        ),
        LineFault::BadPlan => bad_line(
            rt,
            "--refuse takes pairs of a hart and the number of its step, two decimal numbers below 2^32 each, as 0:7,1:3",
        ),
        LineFault::BadExplain => bad_line(rt, "--explain takes auto, always or never"),
        LineFault::BadNumber => bad_line(
            rt,
            "a number is not written in decimal digits, or is too large",
        ),
        LineFault::BadObject => bad_object(rt),
        LineFault::Memory => out_of_memory(rt),
    }
}

/// Reports why a command line gives no order, as `refuse` does, but without clap's tip to write
/// `--`.
pub fn refuse_line(rt: &(impl AllocGlobal + Print + Eprint), fault: &LineFault) -> Status {
    match fault {
        LineFault::Told(error) if error.use_stderr() => {
            show_mistake(rt, error);
            Status::BadLine
        }
        _ => refuse(rt, fault),
    }
}

// Shows clap's text on a mistake, but for the tip.
fn show_mistake(rt: &(impl AllocGlobal + Eprint), error: &clap::Error) {
    // If standard error is closed, only the status shows it.
    let _ = match format!(in rt.alloc(); "{error}") {
        Ok(text) => match told_around(&text) {
            Some((before, behind)) => eprint!(rt; "{before}\n{behind}"),
            None => eprint!(rt; "{text}"),
        },
        Err(AllocError) => eprint!(rt; "{error}"),
    };
}

// What stands before the tip, without the line's end, and in the lines behind it.
fn told_around(text: &str) -> Option<(&str, &str)> {
    let (before, tip) = text.split_once(TIP)?;
    let (_, behind) = tip.split_once("\n")?;
    Some((before.trim_end(), behind))
}

/// Reports that the command line is invalid.
pub fn bad_line(rt: &impl Eprint, why: &str) -> Status
    ensures { result ≡ Status.BadLine }
{
    let _ = eprintln!(rt; "rvcons: {why}");
    Status::BadLine
}

// Reports that an object of the command line isn't one of the library's.
fn bad_object(rt: &impl Eprint) -> Status
    ensures { result ≡ Status.BadLine }
{
    let names = KIND_NAMES;
    let _ = eprintln!(rt; "rvcons: there is no such object; write {names}");
    Status::BadLine
}
