//! Engines, and the calls on which they and the program stand. Sinks have ample memory.
use byte_io::{MemorySink, MemorySource, ReadFault, Status, Unheard, read_all};
use cli_args::{LineFault, read_inputs};
use cli_orders::read_plan;
use cmd_asm::{AssemblyFault, assembled_file, listing_engine};
use cmd_debug::{DebugEngineFault, debug_engine};
use cmd_gdb::gdb_engine;
use cmd_replay::replay_engine;
use cmd_run::{Exit, Expect, FileView, ends_text, file_engine, run_engine};
use cmd_schedule::{Plan, schedule_engine};
use hart_step::{Hart, HartState};
use object_library::{Kind, source};
use program_open::{CommandFault, HexFault, ProgramForm, deliver, hex_image, read_hex};
use sched_draw::Schedule;
use std::alloc::{AllocError, Allocator, Global};
use test_images::{EXITS, EXITS_FACTS, EXITS_LISTING};
use test_refusing::{Call, tried};

// A call.
#[derive(Clone, Copy)]
enum EngineCall {
    Run,
    RunHex,
    List,
    Info,
    InfoByAddress,
    Replay,
    Debug,
    Gdb,
    Schedule,
    AssembledFile,
    AssembledListing,
    EndsText,
    ReadAll,
    ReadHex,
    HexImage,
    ReadInputs,
    ReadPlan,
}

// All of them.
const CALLS: [(&str, EngineCall); 17] = [
    ("run", EngineCall::Run),
    ("run in hexadecimal", EngineCall::RunHex),
    ("list", EngineCall::List),
    ("info", EngineCall::Info),
    ("info --by-address", EngineCall::InfoByAddress),
    ("replay", EngineCall::Replay),
    ("debug", EngineCall::Debug),
    ("gdb", EngineCall::Gdb),
    ("schedule", EngineCall::Schedule),
    ("assembled file", EngineCall::AssembledFile),
    ("assembled listing", EngineCall::AssembledListing),
    ("ends_text", EngineCall::EndsText),
    ("read_all", EngineCall::ReadAll),
    ("read_hex", EngineCall::ReadHex),
    ("hex_image", EngineCall::HexImage),
    ("read_inputs", EngineCall::ReadInputs),
    ("read_plan", EngineCall::ReadPlan),
];

impl Call for EngineCall {
    fn answer<A: Allocator + Copy>(&self, alloc: A, host: Global) -> Result<bool, AllocError> {
        match self {
            EngineCall::Run => is_run(alloc, host, &ELF),
            EngineCall::RunHex => is_run(alloc, host, &HEX),
            EngineCall::List => is_shown(alloc, host, FileView::Listing, &EXITS, EXITS_LISTING),
            EngineCall::Info => is_shown(alloc, host, FileView::Facts, &EXITS, EXITS_FACTS),
            EngineCall::InfoByAddress => is_sorted(alloc, host),
            EngineCall::Replay => is_replayed(alloc, host),
            EngineCall::Debug => is_debugged(alloc, host),
            EngineCall::Gdb => is_served(alloc, host),
            EngineCall::Schedule => is_scheduled(alloc),
            EngineCall::AssembledFile => is_assembled(alloc),
            EngineCall::AssembledListing => is_listed(alloc, host),
            EngineCall::EndsText => has_ends(alloc),
            EngineCall::ReadAll => is_read(alloc),
            EngineCall::ReadHex => is_hex(alloc),
            EngineCall::HexImage => is_image(alloc),
            EngineCall::ReadInputs => has_inputs(alloc),
            EngineCall::ReadPlan => has_plan(alloc),
        }
    }
}

const ENDS: &str = "hart 0 exited a0 00000000 a1 00000007\nhart 1 running pc 00010000\n";

const COMMANDS: &str = "where\ngo\nsteps 0 1\nregs 9\nback\nquit\n";

const ANSWERS: &str =
    "step 0 of 2\nend\nstep 2 of 2\n0 h0 00010000 addi a7, zero, 93\nbad command\nstep 1 of 2\n";

const PACKETS: &[u8] = b"$?#3f+$qRcmd,7768657265#3e$c#63+$D#44";

const SENT: &str = "+$T05thread:1;#d7+$737465702030206f6620322c206e657874206861727420300a#d5\
    +$T0502:00000000;08:00000000;20:04000100;thread:1;replaylog:end;#62+$OK#9a";

// How an engine that was called ended: with its full answer or without, or for want of memory.
#[derive(Clone, Copy)]
enum End {
    Done,
    Other,
    Want,
}

// Whether an engine gave its full answer, this text; or it told want of memory and wrote nothing.
fn answer_of(end: End, bytes: &[u8], text: &str) -> Result<bool, AllocError> {
    match end {
        End::Done => Ok(bytes == text.as_bytes()),
        End::Want if bytes.is_empty() => Err(AllocError),
        _ => Ok(false),
    }
}

fn end_of_run(ending: Result<Status, CommandFault>) -> End {
    match ending {
        Ok(Status::Done) => End::Done,
        Err(CommandFault::Memory) => End::Want,
        _ => End::Other,
    }
}

// No rule is judged, and harts may run.
const UNJUDGED: Expect = Expect {
    rule: None,
    exit: Exit::May,
};

// A program, the choices of two harts with the inputs 7 and 9, and their ends.
struct Run {
    form: ProgramForm,
    program: &'static [u8],
    choices: &'static [u8],
    ends: &'static str,
}

const ELF: Run = Run {
    form: ProgramForm::Elf,
    program: &EXITS,
    choices: b"0 0",
    ends: ENDS,
};

// Each hart stores its input at one address, loads the word that is there, and exits with it.
const HEX: Run = Run {
    form: ProgramForm::Hex,
    program: b"000112B7 00B2A023 0002A503 05D00893 00000073",
    choices: b"0 0 1 1 0 0 0 1 1 1",
    ends: "hart 0 exited a0 00000009 a1 00000007\nhart 1 exited a0 00000009 a1 00000009\n",
};

fn is_run<A: Allocator + Copy>(alloc: A, host: Global, run: &Run) -> Result<bool, AllocError> {
    let mut program = MemorySource::new(run.program);
    let mut choices = MemorySource::new(run.choices);
    let mut sink = MemorySink::new(host);
    let answer = run_engine(
        alloc,
        run.form,
        &[7, 9],
        UNJUDGED,
        &mut program,
        &mut choices,
    );
    let ending = deliver(&mut sink, answer);
    answer_of(end_of_run(ending), sink.bytes(), run.ends)
}

fn is_shown<A: Allocator + Copy>(
    alloc: A,
    host: Global,
    view: FileView,
    bytes: &[u8],
    text: &str,
) -> Result<bool, AllocError> {
    let mut file = MemorySource::new(bytes);
    let mut sink = MemorySink::new(host);
    let answer = file_engine(alloc, view, &mut file);
    let ending = deliver(&mut sink, answer);
    answer_of(end_of_run(ending), sink.bytes(), text)
}

// A program whose second symbol stands before its first, and its facts by address.
const THERE: &[u8] = b".globl _start\n_start: nop\nthere: ecall\n";

const THERE_FACTS: &str = "entry 00010000\nsegment 00010000 8 r-x\n\
symbol 00010000 _start\nsymbol 00010004 there\nlibrary none\n";

fn is_sorted<A: Allocator + Copy>(alloc: A, host: Global) -> Result<bool, AllocError> {
    match assembled_file(host, &mut [MemorySource::new(THERE)]) {
        Ok(file) => is_shown(alloc, host, FileView::FactsByAddress, &file, THERE_FACTS),
        Err(_) => Ok(false),
    }
}

fn is_replayed<A: Allocator + Copy>(alloc: A, host: Global) -> Result<bool, AllocError> {
    let mut program = MemorySource::new(&EXITS);
    let mut history = MemorySource::new(b"0+1");
    let mut sink = MemorySink::new(host);
    let answer = replay_engine(alloc, &[7, 9], UNJUDGED, &mut program, &mut history);
    let ending = deliver(&mut sink, answer);
    answer_of(end_of_run(ending), sink.bytes(), ENDS)
}

// Lines and packets are answered as they come, so that a beginning of the answers may be written.
fn answer_of_session(
    ending: Result<Status, DebugEngineFault>,
    bytes: &[u8],
    answers: &str,
) -> Result<bool, AllocError> {
    match ending {
        Ok(status) => Ok(status == Status::Done && bytes == answers.as_bytes()),
        Err(DebugEngineFault::Refused(CommandFault::Memory)) if bytes.is_empty() => Err(AllocError),
        Err(DebugEngineFault::Memory) if answers.as_bytes().starts_with(bytes) => Err(AllocError),
        Err(_) => Ok(false),
    }
}

fn is_debugged<A: Allocator + Copy>(alloc: A, host: Global) -> Result<bool, AllocError> {
    let mut program = MemorySource::new(&EXITS);
    let mut choices = MemorySource::new(b"0 0");
    let mut commands = MemorySource::new(COMMANDS.as_bytes());
    let mut sink = MemorySink::new(host);
    let ending = debug_engine(
        alloc,
        &[7, 9],
        &mut program,
        &mut choices,
        &mut commands,
        &mut sink,
        &mut Unheard,
    );
    answer_of_session(ending, sink.bytes(), ANSWERS)
}

fn is_served<A: Allocator + Copy>(alloc: A, host: Global) -> Result<bool, AllocError> {
    let mut program = MemorySource::new(&EXITS);
    let mut choices = MemorySource::new(b"0 0");
    let mut packets = MemorySource::new(PACKETS);
    let mut sink = MemorySink::new(host);
    let ending = gdb_engine(
        alloc,
        &[7, 9],
        &mut program,
        &mut choices,
        &mut packets,
        &mut sink,
        &mut Unheard,
    );
    answer_of_session(ending, sink.bytes(), SENT)
}

fn is_scheduled<A: Allocator + Copy>(alloc: A) -> Result<bool, AllocError> {
    let Ok(plan) = Plan::new(2, 12, Schedule::Only(1)) else {
        return Ok(false);
    };
    match schedule_engine(alloc, plan) {
        Ok((text, _)) => Ok(text.as_str() == "1 1 1 1 1 1 1 1 1 1 1 1\n"),
        Err(CommandFault::Memory) => Err(AllocError),
        Err(_) => Ok(false),
    }
}

fn is_assembled<A: Allocator + Copy>(alloc: A) -> Result<bool, AllocError> {
    let mut sources = [MemorySource::new(source(Kind::Swap).as_bytes())];
    match assembled_file(alloc, &mut sources) {
        Ok(file) => Ok(file.len() == 8576),
        Err(AssemblyFault::Memory) => Err(AllocError),
        Err(_) => Ok(false),
    }
}

fn end_of_listing(ending: Result<Status, AssemblyFault>) -> End {
    match ending {
        Ok(Status::Done) => End::Done,
        Err(AssemblyFault::Memory) => End::Want,
        _ => End::Other,
    }
}

fn is_listed<A: Allocator + Copy>(alloc: A, host: Global) -> Result<bool, AllocError> {
    let mut sources = [MemorySource::new(b"ecall")];
    let mut sink = MemorySink::new(host);
    let ending = listing_engine(alloc, &mut sources, &mut sink);
    answer_of(
        end_of_listing(ending),
        sink.bytes(),
        "ecall  # 00010000 00000073\n",
    )
}

fn has_ends<A: Allocator + Copy>(alloc: A) -> Result<bool, AllocError> {
    let hart = Hart {
        registers: [0; 32],
        pc: 0x0001_0000,
        state: HartState::Running,
    };
    let (text, status) = ends_text(alloc, UNJUDGED, &[], &[], &[hart])?;
    Ok(status == Status::Done && text.as_str() == "hart 0 running pc 00010000\n")
}

fn is_image<A: Allocator + Copy>(alloc: A) -> Result<bool, AllocError> {
    let image = hex_image(alloc, &[19; 20])?;
    Ok(image.segments().len() == 1)
}

fn is_read<A: Allocator + Copy>(alloc: A) -> Result<bool, AllocError> {
    let mut file = MemorySource::new(&EXITS);
    match read_all(alloc, &mut file) {
        Ok(bytes) => Ok(bytes.as_slice() == EXITS.as_slice()),
        Err(ReadFault::Memory) => Err(AllocError),
        Err(_) => Ok(false),
    }
}

fn is_hex<A: Allocator + Copy>(alloc: A) -> Result<bool, AllocError> {
    match read_hex(alloc, b"00000013 00000013 00000013 00000013 00000073") {
        Ok(words) => Ok(words.len() == 5),
        Err(HexFault::Memory) => Err(AllocError),
        Err(_) => Ok(false),
    }
}

fn has_inputs<A: Allocator + Copy>(alloc: A) -> Result<bool, AllocError> {
    match read_inputs(alloc, "1,2,3,4,5,6,7,8,9,10,11,12") {
        Ok(inputs) => Ok(inputs.len() == 12),
        Err(LineFault::Memory) => Err(AllocError),
        Err(_) => Ok(false),
    }
}

fn has_plan<A: Allocator + Copy>(alloc: A) -> Result<bool, AllocError> {
    match read_plan(alloc, "0:1,0:2,0:3,0:4,0:5,0:6,1:1,1:2,1:3,1:4,1:5,1:6") {
        Ok(plan) => Ok(plan.len() == 12),
        Err(LineFault::Memory) => Err(AllocError),
        Err(_) => Ok(false),
    }
}

#[test]
fn engines_tell_want_of_memory(rt: HostRuntime) {
    for (name, call) in &CALLS {
        assert!(rt; tried(rt.alloc(), call) == Ok(()), "{name}");
    }
}
