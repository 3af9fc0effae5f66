//! What no clause says: a transcript, lines that are no text, and devices that fail.
use byte_io::{Failing, MemorySink, MemorySource, Status, Unheard};
use cmd_debug::{DebugEngineFault, debug_engine};
use image::ElfFault;
use program_open::{CommandFault, Input};
use std::alloc::{AllocError, Global};
use test_images::EXITS;

const CHOICES: &[u8] = b"0 1 0 1";

const COMMANDS: &[u8] =
    b"where\r\n\nsteps 0 3\nbreak 0x00010004\ngo\njump\ngoto 5\nwhere\nquit\nwhere\n";

const TRANSCRIPT: &[u8] = b"step 0 of 4\n0 h0 00010000 addi a7, zero, 93\n\
1 h1 00010000 addi a7, zero, 93\n2 h0 00010004 ecall\nbreak 00010004\nbreak h0 00010004\nstep 1 of 4\n\
bad command\npast end\nstep 1 of 4\n";

// How many calls of each device pass before it fails.
#[derive(Clone, Copy)]
struct Passed {
    program: u64,
    choices: u64,
    commands: u64,
    sink: u64,
}

// No device fails.
const ALL: Passed = Passed {
    program: u64::MAX,
    choices: u64::MAX,
    commands: u64::MAX,
    sink: u64::MAX,
};

// A session, how it ends, and its answers.
#[derive(Clone, Copy)]
struct Session {
    name: &'static str,
    program: &'static [u8],
    inputs: &'static [u32],
    commands: &'static [u8],
    passed: Passed,
    result: Result<Status, DebugEngineFault>,
    answers: &'static [u8],
}

#[rattlefmt::skip]
const ANSWERED: Session = Session {
    name: "a session is answered", program: &EXITS, inputs: &[7, 9], commands: COMMANDS,
    passed: ALL, result: Ok(Status::Done), answers: TRANSCRIPT,
};

// The first line of the commands and its end have seven bytes.
#[rattlefmt::skip]
const SESSIONS: [Session; 10] = [
    ANSWERED,
    Session { name: "a session without quit ends with its commands", commands: b"where\nback",
        answers: b"step 0 of 4\npast end\n", ..ANSWERED },
    Session { name: "a line that is no text is a bad command", commands: b"wh\xffere\nwhere\n",
        answers: b"bad command\nstep 0 of 4\n", ..ANSWERED },
    Session { name: "no hart", inputs: &[],
        result: Err(DebugEngineFault::Refused(CommandFault::NoHarts)), answers: b"", ..ANSWERED },
    Session { name: "33 harts", inputs: &[7; 33],
        result: Err(DebugEngineFault::Refused(CommandFault::TooManyHarts)), answers: b"", ..ANSWERED },
    Session { name: "a choice of a second hart of one", inputs: &[7],
        result: Err(DebugEngineFault::Refused(CommandFault::NoHart(2))), answers: b"", ..ANSWERED },
    Session { name: "a program that fails", passed: Passed { program: 0, ..ALL },
        result: Err(DebugEngineFault::Refused(CommandFault::Read(Input::File))), answers: b"", ..ANSWERED },
    Session { name: "commands that fail", passed: Passed { commands: 7, ..ALL },
        result: Err(DebugEngineFault::Commands), answers: b"step 0 of 4\n", ..ANSWERED },
    Session { name: "a sink that fails", passed: Passed { sink: 1, ..ALL },
        result: Err(DebugEngineFault::Answers), answers: b"step 0 of 4\n", ..ANSWERED },
    Session { name: "a refused program is told before the choices fail", program: b"no program", passed: Passed { choices: 0, ..ALL },
        result: Err(DebugEngineFault::Refused(CommandFault::Elf(ElfFault::Short))), answers: b"", ..ANSWERED },
];

// How a session ends that is held with these commands, and what it has answered.
fn held(
    alloc: Global,
    session: &Session,
    commands: &[u8],
) -> (
    Result<Status, DebugEngineFault>,
    Failing<MemorySink<Global>>,
) {
    let passed = session.passed;
    let mut program = Failing::new(MemorySource::new(session.program), passed.program);
    let mut choices = Failing::new(MemorySource::new(CHOICES), passed.choices);
    let mut commands = Failing::new(MemorySource::new(commands), passed.commands);
    let mut sink = Failing::new(MemorySink::new(alloc), passed.sink);
    let result = debug_engine(
        alloc,
        session.inputs,
        &mut program,
        &mut choices,
        &mut commands,
        &mut sink,
        &mut Unheard,
    );
    (result, sink)
}

// Whether a session ends and is answered as wanted.
fn is_held(alloc: Global, session: &Session) -> bool {
    let (result, sink) = held(alloc, session, session.commands);
    result == session.result && sink.device().bytes() == session.answers
}

#[test]
fn sessions_are_held(rt: HostRuntime) {
    for session in &SESSIONS {
        let name = session.name;
        assert!(rt; is_held(rt.alloc(), session), "{name}");
    }
}

// Commands with a byte that stands there 5000 times, and their answers.
struct LongLine {
    name: &'static str,
    before: &'static [u8],
    byte: u8,
    behind: &'static [u8],
    answers: &'static [u8],
}

#[rattlefmt::skip]
const LONG_LINES: [LongLine; 6] = [
    LongLine { name: "a blank line, with CR", before: b"", byte: b' ', behind: b"\r\nwhere\r\n", answers: b"step 0 of 4\n" },
    LongLine { name: "blanks before a word", before: b"", byte: b' ', behind: b"where\n", answers: b"step 0 of 4\n" },
    LongLine { name: "zeros before a digit", before: b"goto ", byte: b'0', behind: b"3\nwhere\n", answers: b"step 3 of 4\nstep 3 of 4\n" },
    LongLine { name: "a number of nines", before: b"goto ", byte: b'9', behind: b"\nwhere\n", answers: b"past end\nstep 0 of 4\n" },
    LongLine { name: "blanks between words", before: b"goto", byte: b' ', behind: b"2\nwhere\n", answers: b"step 2 of 4\nstep 2 of 4\n" },
    LongLine { name: "nines alone", before: b"", byte: b'9', behind: b"\nwhere\n", answers: b"bad command\nstep 0 of 4\n" },
];

// The commands of a long line.
fn commands_of(alloc: Global, line: &LongLine) -> Result<Vec<u8, Global>, AllocError> {
    let mut commands = Vec::new(alloc);
    commands.extend_from_slice(line.before)?;
    for _ in 0..5000 {
        commands.push(line.byte)?;
    }
    commands.extend_from_slice(line.behind)?;
    Ok(commands)
}

// Whether a long line is answered as wanted.
fn is_long_line_held(alloc: Global, line: &LongLine) -> Result<bool, AllocError> {
    let commands = commands_of(alloc, line)?;
    let (result, sink) = held(alloc, &ANSWERED, &commands);
    Ok(result == Ok(Status::Done) && sink.device().bytes() == line.answers)
}

#[test]
fn a_line_of_any_length_is_the_command_that_it_is(rt: HostRuntime) {
    for line in &LONG_LINES {
        let name = line.name;
        assert!(rt; is_long_line_held(rt.alloc(), line) == Ok(true), "{name}");
    }
}
