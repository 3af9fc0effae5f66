//! A debugger session: each line is answered before the next is read.

ghost use Rattle.std.specs.Prelude.{◌≡◌, ◌+◌, ◌-◌, ◌^◌, ◌<◌, Err, IfOk, IfErr, IfSome, string_bytes};
ghost use Rattle.std.specs.Io.KnownBytes.{Appends};
ghost use Rattle.std.specs.Str.Lines.{lines};
ghost use Rattle.debug_session.specs.Session.{session};
ghost use Rattle.debug_text.specs.Reply.{reply_outcome};
ghost use Rattle.cmd_debug.specs.Talk.{answers, fault_line, outcome_to, BeginsTalk};

use crate::line::read_line;
use byte_io::{ReadFault, Sink, Source, write_all};
use debug_session::Debugger;
use debug_text::{Answer, DebugFault, command};
use elf_read::Symbol;
use std::alloc::{AllocError, Allocator};

/// Why a session ended early.
#[derive(Clone, Copy, PartialEq, Eq)]
pub enum TalkFault {
    /// The commands can't be read.
    Read,
    /// The answers can't be written.
    Write,
    /// Out of memory.
    Memory,
}

// The line that reports a refused command.
fn fault_text<A: Allocator>(alloc: A, fault: DebugFault) -> Result<String<A>, AllocError>
    ensures { IfOk result (λ text. string_bytes text ≡ fault_line fault) }
{
    let line = match fault {
        DebugFault::BadCommand => "bad command\n",
        DebugFault::PastEnd => "past end\n",
        DebugFault::NoSymbol => "no symbol\n",
        DebugFault::SeveralSymbols => "several symbols\n",
        DebugFault::Memory => "out of memory\n",
    };
    String::from_str(alloc, line)
}

// Does the command of a line, without its end, and returns its text. A line that isn't UTF-8 is a
// bad command.
fn answer_line<A: Allocator + Copy>(
    alloc: A,
    debugger: &mut Debugger<A>,
    symbols: &[Symbol<A>],
    line: &[u8],
) -> Result<Answer<A>, AllocError>
    ensures { IfOk result (λ answer. outcome_to symbols.now (session debugger.old) line.now
        ≡ reply_outcome answer (session debugger.new)) }
{
    let Ok(text) = str::from_utf8(line) else {
        return Ok(Answer::Text(fault_text(alloc, DebugFault::BadCommand)?));
    };
    match command(alloc, debugger, symbols, text) {
        Ok(answer) => Ok(answer),
        Err(DebugFault::Memory) => Err(AllocError),
        Err(fault) => Ok(Answer::Text(fault_text(alloc, fault)?)),
    }
}

/// Answers the lines of a source, each as soon as it is read, until one ends the session or none is
/// left. The program has these symbols.
pub fn talk<A: Allocator + Copy, S: Source, K: Sink>(
    alloc: A,
    debugger: &mut Debugger<A>,
    symbols: &[Symbol<A>],
    source: &mut S,
    sink: &mut K,
) -> Result<(), TalkFault>
    requires source_counts { S.failures source.old < 2 ^ 64 - 1 }
    requires sink_counts { K.failures sink.old < 2 ^ 64 - 1 }
    ensures done { IfOk result (λ _. IfSome (S.left source.old) (λ input.
        Appends (K.held sink.old) (K.held sink.new)
        (answers symbols.now (session debugger.old) (lines input)))) }
    ensures begun { IfErr result (λ _. IfSome (S.left source.old) (λ input.
        BeginsTalk (K.held sink.old) (K.held sink.new)
        (answers symbols.now (session debugger.old) (lines input)))) }
    ensures read { result ≡ Err TalkFault.Read → S.failures source.old < S.failures source.new }
    ensures write { result ≡ Err TalkFault.Write → K.failures sink.old < K.failures sink.new }
{
    'lines: loop {
        let line = match read_line(alloc, source) {
            Ok(Some(line)) => line,
            Ok(None) => return Ok(()),
            Err(ReadFault::Device) => return Err(TalkFault::Read),
            Err(ReadFault::Memory) => return Err(TalkFault::Memory),
        };
        let text = match answer_line(alloc, debugger, symbols, &line) {
            Ok(Answer::Text(text)) => text,
            Ok(Answer::Quit) => return Ok(()),
            Err(_) => return Err(TalkFault::Memory),
        };
        match write_all(sink, text.as_bytes()) {
            Ok(()) => {}
            Err(_) => return Err(TalkFault::Write),
        }
    }
}
