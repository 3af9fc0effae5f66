//! Tests what no clause says of failing devices: that each engine gives its full answer if none
//! fails. Each device of each engine fails at its first call, then at its second, and so on, until
//! it isn't called that often.
ghost use Rattle.std.specs.Prelude.{◌≡◌};

use byte_io::{Failing, FullSink, MemorySink, MemorySource, Status, Unheard};
use cmd_asm::{AssemblyFault, assembled_file, listing_engine, write_file};
use cmd_campaign::{
    Campaign, Form, Hangs, Jobs, OnThreads, Properties, Report, Unlimited, Words, campaign_engine,
};
use cmd_debug::{DebugEngineFault, debug_engine};
use cmd_replay::replay_engine;
use cmd_run::{Exit, Expect, FileView, file_engine, run_engine};
use cmd_schedule::{Plan, schedule_engine};
use object_library::{Kind, source};
use program_open::{CommandFault, Input, ProgramForm, deliver, write_text};
use sched_draw::{Draw, Schedule};
use std::alloc::Global;
use std::thread::Threads;
use test_images::{EXITS, EXITS_FACTS, EXITS_LISTING};

#[derive(Clone, Copy)]
enum Engine {
    Run,
    RunHex,
    List,
    Info,
    Replay,
    Campaign,
    Assemble,
    AssembleFile,
    Library,
    Schedule,
    Debug,
}

// A device, by its use.
#[derive(Clone, Copy, PartialEq, Eq)]
enum Device {
    Program,
    // The choices, or the history.
    Schedule,
    Commands,
    Output,
}

// An engine and each of its devices.
struct Row {
    name: &'static str,
    engine: Engine,
    devices: &'static [Device],
}

#[rattlefmt::skip]
const ROWS: [Row; 11] = [
    Row { name: "run", engine: Engine::Run, devices: &[Device::Program, Device::Schedule, Device::Output] },
    Row { name: "run in hexadecimal", engine: Engine::RunHex,
        devices: &[Device::Program, Device::Schedule, Device::Output] },
    Row { name: "list", engine: Engine::List, devices: &[Device::Program, Device::Output] },
    Row { name: "info", engine: Engine::Info, devices: &[Device::Program, Device::Output] },
    Row { name: "replay", engine: Engine::Replay, devices: &[Device::Program, Device::Schedule, Device::Output] },
    Row { name: "campaign", engine: Engine::Campaign, devices: &[Device::Program, Device::Output] },
    Row { name: "assemble", engine: Engine::Assemble, devices: &[Device::Program, Device::Output] },
    Row { name: "assemble a file", engine: Engine::AssembleFile, devices: &[Device::Program, Device::Output] },
    Row { name: "library", engine: Engine::Library, devices: &[Device::Output] },
    Row { name: "schedule", engine: Engine::Schedule, devices: &[Device::Output] },
    Row { name: "debug", engine: Engine::Debug, devices: &[Device::Program, Device::Schedule, Device::Commands, Device::Output] },
];

// The device that fails, and the number of calls before that.
#[derive(Clone, Copy)]
struct Failure {
    device: Device,
    passed: u64,
}

impl Failure {
    // Number of calls before a device fails: the others never do.
    fn calls(self, device: Device) -> u64 {
        if device == self.device {
            self.passed
        } else {
            u64::MAX
        }
    }
}

// The outcome of a call.
#[derive(Clone, Copy)]
enum Outcome {
    // The full answer.
    Full,
    // The fault names this device, and what was written is what may have been.
    Failed(Device),
    Other,
}

// The outcome of an answer, or another one if it wrote what it may not have.
fn checked(outcome: Outcome, written: &[u8], full: &[u8]) -> Outcome {
    let may_be_written = match outcome {
        Outcome::Full => written == full,
        Outcome::Failed(Device::Program) | Outcome::Failed(Device::Schedule) => written.is_empty(),
        Outcome::Failed(Device::Commands) | Outcome::Failed(Device::Output) => full.starts_with(
            written,
        ),
        Outcome::Other => false,
    };
    if may_be_written {
        outcome
    } else {
        Outcome::Other
    }
}

const ENDS: &str = "hart 0 running pc 00010000\nhart 1 running pc 00010000\n";

const SEEDS: &str =
    "seed 5 exited 1 faulted 0 running 0\nseed 6 exited 1 faulted 0 running 0\nseed 7 exited 1 faulted 0 running 0\n";

const INPUTS: [u32; 2] = [7, 9];

const COMMANDS: &[u8] = b"where\nsteps 0 1\nback\nquit\n";

const ANSWERS: &str = "step 0 of 2\n0 h0 00010000 addi a7, zero, 93\npast end\n";

// The outcome of a run, a campaign or a view of a file.
fn told(answer: Result<Status, CommandFault>) -> Outcome {
    match answer {
        Ok(Status::Done) => Outcome::Full,
        Err(CommandFault::Read(Input::File)) => Outcome::Failed(Device::Program),
        Err(CommandFault::Read(Input::Choices | Input::History)) => {
            Outcome::Failed(Device::Schedule)
        }
        Err(CommandFault::Write) => Outcome::Failed(Device::Output),
        _ => Outcome::Other,
    }
}

// No rule is judged, and harts may run.
const UNJUDGED: Expect = Expect {
    rule: None,
    exit: Exit::May,
};

// A jump to itself, in hexadecimal.
const LOOP: &[u8] = b"0000006F";

fn run(alloc: Global, failure: Failure, form: ProgramForm, file: &[u8]) -> Outcome {
    // No choice, in three pieces.
    let blanks = [b' '; 40_000];
    let mut program = Failing::new(MemorySource::new(file), failure.calls(Device::Program));
    let mut choices = Failing::new(MemorySource::new(&blanks), failure.calls(Device::Schedule));
    let mut sink = Failing::new(MemorySink::new(alloc), failure.calls(Device::Output));
    let answer = run_engine(alloc, form, &[7, 9], UNJUDGED, &mut program, &mut choices);
    let result = deliver(&mut sink, answer);
    checked(told(result), sink.device().bytes(), ENDS.as_bytes())
}

fn show(alloc: Global, failure: Failure, view: FileView, full: &[u8]) -> Outcome {
    let mut file = Failing::new(MemorySource::new(&EXITS), failure.calls(Device::Program));
    let mut sink = Failing::new(MemorySink::new(alloc), failure.calls(Device::Output));
    let answer = file_engine(alloc, view, &mut file);
    let result = deliver(&mut sink, answer);
    checked(told(result), sink.device().bytes(), full)
}

fn replay(alloc: Global, failure: Failure) -> Outcome {
    // No entry, in three pieces.
    let blanks = [b' '; 40_000];
    let mut program = Failing::new(MemorySource::new(&EXITS), failure.calls(Device::Program));
    let mut history = Failing::new(MemorySource::new(&blanks), failure.calls(Device::Schedule));
    let mut sink = Failing::new(MemorySink::new(alloc), failure.calls(Device::Output));
    let answer = replay_engine(alloc, &[7, 9], UNJUDGED, &mut program, &mut history);
    let result = deliver(&mut sink, answer);
    checked(told(result), sink.device().bytes(), ENDS.as_bytes())
}

// A campaign of three seeds, with a line for each. Its harts may still run at the end.
fn three_seeds() -> Campaign
    ensures first { result.first ≡ 5 }
    ensures count { result.count ≡ 3 }
{
    Campaign {
        first: 5,
        count: 3,
        steps: 2,
        draw: Draw::usual(),
        expect: UNJUDGED,
        properties: Properties::NONE,
        hangs: Hangs::Unasked,
        words: Words::NONE,
        report: Report::Lines,
        form: Form::Text,
    }
}

fn campaign<R: Threads + Sync>(rt: &R, alloc: Global, failure: Failure) -> Outcome {
    let mut program = Failing::new(MemorySource::new(&EXITS), failure.calls(Device::Program));
    let mut sink = Failing::new(MemorySink::new(alloc), failure.calls(Device::Output));
    let result = campaign_engine(
        &OnThreads {
            rt,
            jobs: Jobs::ForProcessors,
        },
        alloc,
        &[7],
        three_seeds(),
        &mut Unlimited,
        &mut program,
        &mut sink,
        &mut Unheard,
    );
    checked(
        told(result.map(|finished| finished.status)),
        sink.device().bytes(),
        SEEDS.as_bytes(),
    )
}

fn assemble(alloc: Global, failure: Failure) -> Outcome {
    let mut sources = [Failing::new(MemorySource::new(b"ecall"), failure.calls(Device::Program))];
    let mut sink = Failing::new(MemorySink::new(alloc), failure.calls(Device::Output));
    let outcome = match listing_engine(alloc, &mut sources, &mut sink) {
        Ok(Status::Done) => Outcome::Full,
        Err(AssemblyFault::Read(0)) => Outcome::Failed(Device::Program),
        Err(AssemblyFault::Write) => Outcome::Failed(Device::Output),
        _ => Outcome::Other,
    };
    checked(
        outcome,
        sink.device().bytes(),
        b"ecall  # 00010000 00000073\n",
    )
}

fn assemble_file(alloc: Global, failure: Failure) -> Outcome {
    let mut sources = [Failing::new(MemorySource::new(b"ecall"), failure.calls(Device::Program))];
    let mut sink = Failing::new(MemorySink::new(alloc), failure.calls(Device::Output));
    let file = match assembled_file(alloc, &mut sources) {
        Ok(file) => file,
        Err(AssemblyFault::Read(0)) => return Outcome::Failed(Device::Program),
        Err(_) => return Outcome::Other,
    };
    let outcome = match write_file(&mut sink, &file) {
        Ok(Status::Done) => Outcome::Full,
        Err(AssemblyFault::Write) => Outcome::Failed(Device::Output),
        _ => Outcome::Other,
    };
    checked(outcome, sink.device().bytes(), &file)
}

fn library(alloc: Global, failure: Failure) -> Outcome {
    let mut sink = Failing::new(MemorySink::new(alloc), failure.calls(Device::Output));
    let text = source(Kind::Swap).as_bytes();
    let result = write_text(&mut sink, text);
    checked(
        told(result.map(|_| Status::Done)),
        sink.device().bytes(),
        text,
    )
}

fn schedule(alloc: Global, failure: Failure) -> Outcome {
    let Ok(plan) = Plan::new(2, 5, Schedule::Turns) else {
        return Outcome::Other;
    };
    let mut sink = Failing::new(MemorySink::new(alloc), failure.calls(Device::Output));
    let result = deliver(&mut sink, schedule_engine(alloc, plan));
    checked(told(result), sink.device().bytes(), b"0 1 0 1 0\n")
}

fn debug(alloc: Global, failure: Failure) -> Outcome {
    let mut program = Failing::new(MemorySource::new(&EXITS), failure.calls(Device::Program));
    let mut choices = Failing::new(MemorySource::new(b"0 1"), failure.calls(Device::Schedule));
    let mut commands = Failing::new(MemorySource::new(COMMANDS), failure.calls(Device::Commands));
    let mut sink = Failing::new(MemorySink::new(alloc), failure.calls(Device::Output));
    let result = debug_engine(
        alloc,
        &INPUTS,
        &mut program,
        &mut choices,
        &mut commands,
        &mut sink,
        &mut Unheard,
    );
    let outcome = match result {
        Ok(status) => told(Ok(status)),
        Err(DebugEngineFault::Refused(fault)) => told(Err(fault)),
        Err(DebugEngineFault::Commands) => Outcome::Failed(Device::Commands),
        Err(DebugEngineFault::Answers) => Outcome::Failed(Device::Output),
        Err(_) => Outcome::Other,
    };
    checked(outcome, sink.device().bytes(), ANSWERS.as_bytes())
}

fn use_engine<R: Threads + Sync>(
    rt: &R,
    alloc: Global,
    engine: Engine,
    failure: Failure,
) -> Outcome {
    match engine {
        Engine::Run => run(alloc, failure, ProgramForm::Elf, &EXITS),
        Engine::RunHex => run(alloc, failure, ProgramForm::Hex, LOOP),
        Engine::List => show(alloc, failure, FileView::Listing, EXITS_LISTING.as_bytes()),
        Engine::Info => show(alloc, failure, FileView::Facts, EXITS_FACTS.as_bytes()),
        Engine::Replay => replay(alloc, failure),
        Engine::Campaign => campaign(rt, alloc, failure),
        Engine::Assemble => assemble(alloc, failure),
        Engine::AssembleFile => assemble_file(alloc, failure),
        Engine::Library => library(alloc, failure),
        Engine::Schedule => schedule(alloc, failure),
        Engine::Debug => debug(alloc, failure),
    }
}

// More calls than a device here has.
const MOST: u64 = 100;

// Number of a device's calls; `None` if it fails and the outcome is another.
fn calls_of<R: Threads + Sync>(
    rt: &R,
    alloc: Global,
    engine: Engine,
    device: Device,
) -> Option<u64> {
    for passed in 0..MOST {
        match use_engine(rt, alloc, engine, Failure { device, passed }) {
            Outcome::Full => return Some(passed),
            Outcome::Failed(failed) if failed == device => {}
            _ => return None,
        }
    }
    None
}

// Whether a device is called, and each failure of it is reported.
fn is_told<R: Threads + Sync>(rt: &R, alloc: Global, engine: Engine, device: Device) -> bool {
    calls_of(rt, alloc, engine, device).is_some_and(|calls| calls > 0)
}

#[test]
fn each_call_of_each_device_fails(rt: HostRuntime) {
    for row in &ROWS {
        for device in row.devices {
            assert!(rt;
                is_told(&rt, rt.alloc(), row.engine, *device),
                "{}",
                row.name
            );
        }
    }
}

// The fault of a full sink: by a view of a file.
fn full_view(alloc: Global, view: FileView) -> Result<Status, CommandFault> {
    let mut file = MemorySource::new(&EXITS);
    let answer = file_engine(alloc, view, &mut file);
    deliver(&mut FullSink::new(), answer)
}

// By a campaign.
fn full_campaign<R: Threads + Sync>(rt: &R, alloc: Global) -> Result<Status, CommandFault> {
    let mut program = MemorySource::new(&EXITS);
    let finished = campaign_engine(
        &OnThreads {
            rt,
            jobs: Jobs::ForProcessors,
        },
        alloc,
        &[7],
        three_seeds(),
        &mut Unlimited,
        &mut program,
        &mut FullSink::new(),
        &mut Unheard,
    );
    finished.map(|finished| finished.status)
}

// By the debugger.
fn full_debug(alloc: Global) -> Result<Status, DebugEngineFault> {
    let mut program = MemorySource::new(&EXITS);
    let mut choices = MemorySource::new(b"0 1");
    let mut commands = MemorySource::new(COMMANDS);
    debug_engine(
        alloc,
        &[7, 9],
        &mut program,
        &mut choices,
        &mut commands,
        &mut FullSink::new(),
        &mut Unheard,
    )
}

#[test]
fn a_full_sink_is_told(rt: HostRuntime) {
    for view in [FileView::Listing, FileView::Facts] {
        assert!(rt; full_view(rt.alloc(), view) == Err(CommandFault::Write));
    }
    assert!(rt; write_text(&mut FullSink::new(), b"li") == Err(CommandFault::Write));
    assert!(rt; full_campaign(&rt, rt.alloc()) == Err(CommandFault::Write));
    assert!(rt; full_debug(rt.alloc()) == Err(DebugEngineFault::Answers));
}
