//! Devices over the readers and writers of std. An interrupted call is repeated.
ghost use Rattle.std.specs.Prelude.{◌≡◌, ◌-◌, ◌^◌, ◌≤◌, length, IfOk};
ghost use Rattle.std.specs.Io.KnownBytes.{ReadConsumes, WriteAppends};

use crate::device::{DeviceFault, Sink, Source};
use std::io::{ErrorKind, Read, Write};

// One read, repeated while it is interrupted.
fn read_again<R: Read>(reader: &mut R, piece: &mut [u8]) -> Result<usize, DeviceFault>
    ensures bound { IfOk result (λ n. n ≤ length piece.old) }
    ensures bytes { ReadConsumes (R.remaining reader.old) (R.remaining reader.new) result piece.new }
{
    'calls: for _ in 0..u64::MAX {
        match reader.read(piece) {
            Ok(count) => return Ok(count),
            Err(error) if error.kind() == ErrorKind::Interrupted => {}
            Err(_) => return Err(DeviceFault),
        }
    }
    Err(DeviceFault)
}

// One write, repeated while it is interrupted.
fn write_again<W: Write>(writer: &mut W, piece: &[u8]) -> Result<usize, DeviceFault>
    ensures bound { IfOk result (λ n. n ≤ length piece.now) }
    ensures bytes { WriteAppends (W.contents writer.old) (W.contents writer.new) result piece.now }
{
    'calls: for _ in 0..u64::MAX {
        match writer.write(piece) {
            Ok(count) => return Ok(count),
            Err(error) if error.kind() == ErrorKind::Interrupted => {}
            Err(_) => return Err(DeviceFault),
        }
    }
    Err(DeviceFault)
}

/// A source over a reader.
#[derive(Drop)]
pub struct ReaderSource<R: Read> {
    reader: R,
    given: u64,
    failures: u64,
}

impl<R: Read> ReaderSource<R> {
    /// All that the reader has left is left.
    pub fn new(reader: R) -> ReaderSource<R>
        ensures left { ⟦<ReaderSource<R> as Source>⟧.left result ≡ R.remaining reader }
        ensures failures { ⟦<ReaderSource<R> as Source>⟧.failures result ≡ 0 }
    {
        ReaderSource {
            reader,
            given: 0,
            failures: 0,
        }
    }
}

impl<R: Read> Source for ReaderSource<R> {
    ghost left = { λ s. R.remaining s.reader };

    ghost failures = { λ s. s.failures };

    ghost room = { λ s. 2 ^ 64 - 1 - s.given };

    fn read(&mut self, piece: &mut [u8]) -> Result<usize, DeviceFault> {
        if piece.len() as u64 > u64::MAX - self.given {
            self.failures += 1;
            return Err(DeviceFault);
        }
        match read_again(&mut self.reader, piece) {
            Ok(count) => {
                self.given += count as u64;
                Ok(count)
            }
            Err(DeviceFault) => {
                self.failures += 1;
                Err(DeviceFault)
            }
        }
    }
}

/// A sink over a writer.
#[derive(Drop)]
pub struct WriterSink<W: Write> {
    writer: W,
    failures: u64,
}

impl<W: Write> WriterSink<W> {
    /// The sink holds what the writer contains.
    pub fn new(writer: W) -> WriterSink<W>
        ensures held { ⟦<WriterSink<W> as Sink>⟧.held result ≡ W.contents writer }
        ensures failures { ⟦<WriterSink<W> as Sink>⟧.failures result ≡ 0 }
    {
        WriterSink {
            writer,
            failures: 0,
        }
    }
}

impl<W: Write> Sink for WriterSink<W> {
    ghost held = { λ s. W.contents s.writer };

    ghost failures = { λ s. s.failures };

    fn write(&mut self, piece: &[u8]) -> Result<usize, DeviceFault> {
        match write_again(&mut self.writer, piece) {
            Ok(0) if !piece.is_empty() => {
                self.failures += 1;
                Err(DeviceFault)
            }
            Ok(count) => Ok(count),
            Err(DeviceFault) => {
                self.failures += 1;
                Err(DeviceFault)
            }
        }
    }
}
