//! Whole outputs of `trace`, worked by hand; which choices are told; long outputs; what is refused;
//! failing devices.
use crate::worked::EXITS;
use byte_io::{Failing, FullSink, MemorySink, MemorySource, Status};
use cmd_trace::{TraceForm, TracePlan, trace_engine};
use program_open::{CommandFault, Input, ProgramForm};
use std::alloc::Global;

// All choices, as lines.
const ALL: TracePlan = TracePlan {
    form: TraceForm::Lines,
    from: 0,
    to: None,
    word: None,
};

// The head of the run of one hart, up to the number of its first choice.
const HEAD: &str = "{\"trace\":1,\"entry\":65536,\"inputs\":[7],\"from\":";

// The hart at its start, as the head has it.
const AT_START: &str =
    ",\"symbols\":[],\"harts\":[{\"pc\":65536,\"registers\":[0,0,0,0,0,0,0,0,0,0,0,7,1,0,0,0,0,0,0,0,0,0,0,0,0,0,0,0,0,0,0,0],\"reserved\":null,\"end\":{\"state\":\"running\"}}]}\n";

// The hart after its first instruction.
const AFTER_1: &str =
    ",\"symbols\":[],\"harts\":[{\"pc\":65540,\"registers\":[0,0,0,0,0,0,0,0,0,0,0,7,1,0,0,0,0,93,0,0,0,0,0,0,0,0,0,0,0,0,0,0],\"reserved\":null,\"end\":{\"state\":\"running\"}}]}\n";

// The hart when it has exited.
const AT_END: &str =
    ",\"symbols\":[],\"harts\":[{\"pc\":65540,\"registers\":[0,0,0,0,0,0,0,0,0,0,0,7,1,0,0,0,0,93,0,0,0,0,0,0,0,0,0,0,0,0,0,0],\"reserved\":null,\"end\":{\"state\":\"exited\",\"status\":0}}]}\n";

// What its first three choices do.
const FIRST: &str =
    "{\"choice\":0,\"hart\":0,\"refused\":false,\"pc\":65536,\"word\":97519763,\"text\":\"addi a7, zero, 93\",\"access\":null,\"register\":{\"name\":\"a7\",\"value\":93},\"reserved\":null,\"next\":65540,\"end\":{\"state\":\"running\"}}\n";

const SECOND: &str =
    "{\"choice\":1,\"hart\":0,\"refused\":true,\"pc\":65540,\"word\":115,\"text\":\"ecall\",\"access\":null,\"register\":null,\"reserved\":null,\"next\":65540,\"end\":{\"state\":\"exited\",\"status\":0}}\n";

const THIRD: &str =
    "{\"choice\":2,\"hart\":0,\"refused\":false,\"pc\":65540,\"word\":null,\"text\":null,\"access\":null,\"register\":null,\"reserved\":null,\"next\":65540,\"end\":{\"state\":\"exited\",\"status\":0}}\n";

// The same as a table.
const TABLE: &str = "| Choice | Hart 0 | At |
|---|---|---|
| 0 | `addi a7, zero, 93` a7 = 0x0000005d |  |
| 1 | `ecall` exits with 0x00000000 (refused) |  |
| 2 | has stopped |  |
";

// A run that is traced: the harts' inputs, the program's words and the choices.
struct Run {
    inputs: &'static [u32],
    words: &'static str,
    choices: &'static str,
}

// What the trace of a run answers, and what it has written.
fn traced(
    alloc: Global,
    plan: TracePlan,
    run: &Run,
) -> (Result<Status, CommandFault>, MemorySink<Global>) {
    let mut program = MemorySource::new(run.words.as_bytes());
    let mut choices = MemorySource::new(run.choices.as_bytes());
    let mut sink = MemorySink::new(alloc);
    let answer = trace_engine(
        alloc,
        ProgramForm::Hex,
        plan,
        run.inputs,
        &mut program,
        &mut choices,
        &mut sink,
    );
    (answer, sink)
}

// Whether a text is these parts, one after the other.
fn is_made_of(text: &[u8], parts: &[&str]) -> bool {
    let mut rest = text;
    for part in parts {
        let Some(left) = rest.strip_prefix(part.as_bytes()) else {
            return false;
        };
        rest = left;
    }
    rest.is_empty()
}

// A run of three choices.
const THREE: Run = Run {
    inputs: &[7],
    words: EXITS,
    choices: "0 0! 0",
};

// Whether the trace of that run is made of these parts.
fn is_written(alloc: Global, plan: TracePlan, parts: &[&str]) -> bool {
    let (answer, sink) = traced(alloc, plan, &THREE);
    answer == Ok(Status::Done) && is_made_of(sink.bytes(), parts)
}

// A plan of lines: its first choice, the choice before which it ends, and the parts of what is
// written.
struct Told {
    name: &'static str,
    from: u64,
    to: Option<u64>,
    parts: &'static [&'static str],
}

#[rattlefmt::skip]
const TOLD: [Told; 11] = [
    Told { name: "all", from: 0, to: None,
        parts: &[HEAD, "0,\"to\":3", AT_START, FIRST, SECOND, THIRD] },
    Told { name: "all, by their number", from: 0, to: Some(3),
        parts: &[HEAD, "0,\"to\":3", AT_START, FIRST, SECOND, THIRD] },
    Told { name: "from 1", from: 1, to: None,
        parts: &[HEAD, "1,\"to\":3", AFTER_1, SECOND, THIRD] },
    Told { name: "to 2", from: 0, to: Some(2),
        parts: &[HEAD, "0,\"to\":2", AT_START, FIRST, SECOND] },
    Told { name: "1 alone", from: 1, to: Some(2), parts: &[HEAD, "1,\"to\":2", AFTER_1, SECOND] },
    Told { name: "from the last", from: 2, to: Some(99),
        parts: &[HEAD, "2,\"to\":3", AT_END, THIRD] },
    Told { name: "behind the last", from: 3, to: None, parts: &[HEAD, "3,\"to\":3", AT_END] },
    Told { name: "far behind the last", from: 9, to: Some(99),
        parts: &[HEAD, "9,\"to\":9", AT_END] },
    Told { name: "from the last number", from: u64::MAX, to: Some(u64::MAX),
        parts: &[HEAD, "18446744073709551615,\"to\":18446744073709551615", AT_END] },
    Told { name: "none", from: 1, to: Some(0), parts: &[HEAD, "1,\"to\":1", AFTER_1] },
    Told { name: "none from the first", from: 0, to: Some(0),
        parts: &[HEAD, "0,\"to\":0", AT_START] },
];

// Whether choices are told so.
fn are_told(alloc: Global, told: &Told) -> bool {
    let plan = TracePlan {
        form: TraceForm::Lines,
        from: told.from,
        to: told.to,
        word: None,
    };
    is_written(alloc, plan, told.parts)
}

#[test]
fn choices_of_the_plan_are_told(rt: HostRuntime) {
    for told in &TOLD {
        let name = told.name;
        assert!(rt; are_told(rt.alloc(), told), "{name}");
    }
}

// All choices, as a table.
const AS_TABLE: TracePlan = TracePlan {
    form: TraceForm::Table,
    from: 0,
    to: None,
    word: None,
};

#[test]
fn table_is_told(rt: HostRuntime) {
    assert!(rt; is_written(rt.alloc(), AS_TABLE, &[TABLE]));
}

// How many lines a text has.
fn lines_of(text: &[u8]) -> usize {
    text.iter().filter(|byte| **byte == b'\n').count()
}

// A run of far more choices than a piece of output takes.
const LONG: Run = Run {
    inputs: &[7],
    words: EXITS,
    choices: "0*1000 0!*2",
};

// The last line of its trace.
const LAST: &str =
    "{\"choice\":1001,\"hart\":0,\"refused\":true,\"pc\":65540,\"word\":null,\"text\":null,\"access\":null,\"register\":null,\"reserved\":null,\"next\":65540,\"end\":{\"state\":\"exited\",\"status\":0}}\n";

// Whether a text is that trace: none of it is lost, nor written twice.
fn is_whole(text: &[u8]) -> bool {
    text.len() > 0x2_0000 && lines_of(text) == 1003 && text.strip_suffix(LAST.as_bytes()).is_some()
}

// Whether the trace of that run is written as a whole.
fn is_long_whole(alloc: Global) -> bool {
    let (answer, sink) = traced(alloc, ALL, &LONG);
    answer == Ok(Status::Done) && is_whole(sink.bytes())
}

#[test]
fn long_output_is_whole(rt: HostRuntime) {
    assert!(rt; is_long_whole(rt.alloc()));
}

// A run that is refused, and how.
struct Refused {
    run: Run,
    fault: CommandFault,
}

#[rattlefmt::skip]
const REFUSED: [Refused; 6] = [
    Refused { run: Run { inputs: &[], words: "05d0089", choices: "x" },
        fault: CommandFault::BadWord(0) },
    Refused { run: Run { inputs: &[], words: EXITS, choices: "x" }, fault: CommandFault::NoHarts },
    Refused { run: Run { inputs: &[0; 33], words: EXITS, choices: "x" },
        fault: CommandFault::TooManyHarts },
    Refused { run: Run { inputs: &[7], words: EXITS, choices: "0 x" },
        fault: CommandFault::BadChoice(2) },
    Refused { run: Run { inputs: &[7], words: EXITS, choices: "0*9 1" },
        fault: CommandFault::NoHart(4) },
    Refused { run: Run { inputs: &[7], words: EXITS, choices: "0*0" },
        fault: CommandFault::BadChoice(0) },
];

// Whether a run is refused so, and nothing is written.
fn is_refused(alloc: Global, refused: &Refused) -> bool {
    let (answer, sink) = traced(alloc, ALL, &refused.run);
    answer == Err(refused.fault) && sink.bytes().is_empty()
}

#[test]
fn bad_inputs_are_refused(rt: HostRuntime) {
    for refused in &REFUSED {
        let choices = refused.run.choices;
        assert!(rt; is_refused(rt.alloc(), refused), "{choices}");
    }
}

// Whether choices that can't be read are told, and nothing is written.
fn is_read_told(alloc: Global) -> bool {
    let mut program = MemorySource::new(EXITS.as_bytes());
    let mut choices = Failing::new(MemorySource::new(b"0 0"), 0);
    let mut sink = MemorySink::new(alloc);
    let answer = trace_engine(
        alloc,
        ProgramForm::Hex,
        ALL,
        &[7],
        &mut program,
        &mut choices,
        &mut sink,
    );
    answer == Err(CommandFault::Read(Input::Choices)) && sink.bytes().is_empty()
}

// What the trace of a run answers where the output is full.
fn traced_to_full(alloc: Global) -> Result<Status, CommandFault> {
    let mut program = MemorySource::new(EXITS.as_bytes());
    let mut choices = MemorySource::new(b"0 0");
    let mut full = FullSink::new();
    trace_engine(
        alloc,
        ProgramForm::Hex,
        ALL,
        &[7],
        &mut program,
        &mut choices,
        &mut full,
    )
}

#[test]
fn failing_devices_are_told(rt: HostRuntime) {
    let answer = traced_to_full(rt.alloc());
    assert!(rt; is_read_told(rt.alloc()) && answer == Err(CommandFault::Write));
}
