//! Standard output, whose reader may go away before all is written, as in `rvcons trace .. | head`.

ghost use Rattle.std.specs.Prelude.{◌≡◌, ◌≤◌, Err, IfErr, IfOk, None, length};

use byte_io::{DeviceFault, Sink, Status};
use program_open::{CommandFault, write_text};
use std::alloc::Allocator;
use std::io::{self, ErrorKind, Printer, Write};

/// Standard output. Each write fails once its reader has gone.
#[derive(Drop)]
pub struct StandardOutput<'a, R> {
    writer: Printer<'a, R>,
    has_reader: bool,
    failures: u64,
}

impl<'a, R: Print> StandardOutput<'a, R> {
    /// Before the first write.
    pub fn new(rt: &'a R) -> StandardOutput<'a, R>
        ensures { ⟦<StandardOutput<'a, R> as Sink>⟧.failures result ≡ 0 }
    {
        StandardOutput {
            writer: io::writer(rt),
            has_reader: true,
            failures: 0,
        }
    }

    /// Whether no write has failed for want of a reader.
    pub fn has_reader(&self) -> bool
        ensures { result ≡ self.now.has_reader }
    {
        self.has_reader
    }
}

// One write, repeated while it is interrupted.
fn write_again<W: Write>(writer: &mut W, piece: &[u8]) -> Result<usize, ErrorKind>
    ensures { IfOk result (λ n. n ≤ length piece.now) }
{
    'calls: for _ in 0..u64::MAX {
        match writer.write(piece) {
            Ok(count) => return Ok(count),
            Err(error) if error.kind() == ErrorKind::Interrupted => {}
            Err(error) => return Err(error.kind()),
        }
    }
    Err(ErrorKind::Interrupted)
}

impl<'a, R: Print> Sink for StandardOutput<'a, R> {
    // What was printed before isn't known.
    ghost held = { λ _. None };

    ghost failures = { λ s. s.failures };

    fn write(&mut self, piece: &[u8]) -> Result<usize, DeviceFault> {
        match write_again(&mut self.writer, piece) {
            Ok(0) if !piece.is_empty() => {
                self.failures += 1;
                Err(DeviceFault)
            }
            Ok(count) => Ok(count),
            Err(kind) => {
                self.has_reader = kind != ErrorKind::BrokenPipe;
                self.failures += 1;
                Err(DeviceFault)
            }
        }
    }
}

/// Prints a text. What is left of it is dropped where its reader has gone.
pub fn print_text<R: Print>(rt: &R, text: &[u8]) -> Result<(), CommandFault>
    ensures { IfErr result (λ fault. fault ≡ CommandFault.Write) }
{
    let mut out = StandardOutput::new(rt);
    match write_text(&mut out, text) {
        Err(fault) if out.has_reader() => Err(fault),
        Ok(()) | Err(_) => Ok(()),
    }
}

/// Prints the text of a command's answer as `print_text` does, and returns its status. For a fault
/// nothing is printed, and the fault is returned.
pub fn print_answer<R: Print, A: Allocator>(
    rt: &R,
    answer: Result<(String<A>, Status), CommandFault>,
) -> Result<Status, CommandFault>
    ensures refused { IfErr answer (λ why. result ≡ Err why) }
    ensures status { IfOk answer (λ said. IfOk result (λ status. status ≡ said.1)) }
    ensures fault { IfOk answer (λ _. IfErr result (λ fault. fault ≡ CommandFault.Write)) }
{
    let (text, status) = answer?;
    print_text(rt, text.as_bytes())?;
    Ok(status)
}
