//! Reads the lines of a source, one at a time.

ghost use Rattle.std.specs.Prelude.{◌≡◌, ◌+◌, ◌-◌, ◌^◌, ◌<◌, Err, IfOk, IfSome, MatchOption, length};
ghost use Rattle.std.specs.Io.KnownBytes.{IsAtEnd};
ghost use Rattle.std.specs.Str.Lines.{strip_carriage_return};
ghost use Rattle.cmd_debug.specs.Lines.{TakesLine, TakesNone};

use byte_io::{DeviceFault, ReadFault, Source};
use std::alloc::Allocator;

/// Removes a carriage return at the end, if there is one.
pub(crate) fn strip<A: Allocator>(line: &mut Vec<u8, A>)
    ensures { line.new.items ≡ strip_carriage_return line.old.items }
{
    if line.last() == Some(&b'\r') {
        line.pop();
    }
}

/// The next line without its end, as soon as its end is read; `None` if no byte is left. A line
/// ends with LF or CR LF, or at the source's end, and may have any length; it takes memory in
/// proportion.
pub fn read_line<A: Allocator + Copy, S: Source>(
    alloc: A,
    source: &mut S,
) -> Result<Option<Vec<u8, A>>, ReadFault>
    requires { S.failures source.old < 2 ^ 64 - 1 }
    ensures line { IfOk result (λ found. MatchOption found
        (TakesNone (S.left source.old) (S.left source.new))
        (λ line. TakesLine (S.left source.old) (S.left source.new) line.items)) }
    ensures nearer { IfOk result (λ found. IfSome found (λ _.
        S.room source.new < S.room source.old)) }
    ensures count { IfOk result (λ _. S.failures source.new ≡ S.failures source.old) }
    ensures device { result ≡ Err ReadFault.Device
        → S.failures source.new ≡ S.failures source.old + 1 }
    ensures memory { result ≡ Err ReadFault.Memory → S.failures source.new ≡ S.failures source.old }
{
    let mut line = Vec::new(alloc);
    let mut piece = [0u8; 1];
    'bytes: loop {
        match source.read(&mut piece) {
            Ok(0) => {
                if line.is_empty() {
                    return Ok(None);
                }
                return Ok(Some(line));
            }
            Ok(_) => {
                if piece[0] == b'\n' {
                    strip(&mut line);
                    return Ok(Some(line));
                }
                let Ok(()) = line.push(piece[0]) else {
                    return Err(ReadFault::Memory);
                };
            }
            Err(DeviceFault) => return Err(ReadFault::Device),
        }
    }
}
