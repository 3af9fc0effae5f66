//! The words of the program's command line.

ghost use Rattle.std.specs.Prelude.{◌≢◌, IfErr};

use crate::report::{bad_line, out_of_memory};
use byte_io::Status;
use std::io;
use std::rt::Env;

/// The words, the first of which is the program's name; or the status if they aren't UTF-8, or out
/// of memory, which is reported.
pub fn read_arguments<R: Env + AllocGlobal + Eprint>(rt: &R) -> Result<Vec<String>, Status>
    ensures { IfErr result (λ status. status ≢ Status.Done) }
{
    let arguments = match std::env::args(rt) {
        Ok(arguments) => arguments,
        Err(error) if error.kind() == io::ErrorKind::OutOfMemory => return Err(out_of_memory(rt)),
        Err(_) => return Err(bad_line(rt, "the arguments are no text")),
    };
    match arguments.collect::<Vec<String>>(rt.alloc()) {
        Ok(words) => Ok(words),
        Err(_) => Err(out_of_memory(rt)),
    }
}
