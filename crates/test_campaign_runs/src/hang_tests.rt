//! Campaigns of which each run is decided to hang or not: lines, rows, the status and the first
//! failure; a seed's run with each request for memory refused in turn.
use byte_io::{MemorySink, MemorySource, Status, Unheard};
use campaign_runs::{Alone, Campaign, Form, Hangs, Properties, Report, Words, run_seed};
use cmd_campaign::{Finished, RunStatus, Unlimited, campaign_engine, until_failure_engine};
use machine::{Inputs, Machine};
use mem_flat::FlatStore;
use outcome::{Exit, Expect};
use program_open::CommandFault;
use property_judge::Property;
use sched_draw::Draw;
use std::alloc::{AllocError, Allocator, Global};
use test_images::{EXITS, writable_program};
use test_refusing::{Call, tried};

// Each hart jumps to itself.
const SPINS: [u32; 2] = [
    0x0000_006f, // jal zero, 0
    0x0000_006f, // jal zero, 0
];

// Hart 0 faults, and the other spins.
const FAULTS_AND_SPINS: [u32; 2] = [
    0x0005_1063, // bne a0, zero, 0
    0x0010_0073, // ebreak
];

// Each hart exits.
const LEAVES: [u32; 2] = [
    0x05d0_0893, // addi a7, zero, 93
    0x0000_0073, // ecall
];

// At the start both harts are somewhere.
const BROKEN: Properties = Properties {
    first: Some(Property::NeverBoth {
        from: 0,
        to: u32::MAX,
    }),
    second: None,
};

// The seeds 3 and 4 of two harts of a program of two words: how they are reported, and how the
// campaign ends.
struct Row {
    words: [u32; 2],
    steps: u64,
    asked: Hangs,
    exit: Exit,
    properties: Properties,
    form: Form,
    report: Report,
    text: &'static str,
    status: RunStatus,
    failure: Option<u64>,
}

// Two runs that hang, for no step.
const HANGING: Row = Row {
    words: SPINS,
    steps: 0,
    asked: Hangs::Asked,
    exit: Exit::May,
    properties: Properties::NONE,
    form: Form::Text,
    report: Report::Lines,
    text: "seed 3 exited 0 faulted 0 running 2 hangs yes\nseed 4 exited 0 faulted 0 running 2 hangs yes\n",
    status: RunStatus::Hangs,
    failure: Some(3),
};

#[rattlefmt::skip]
static ROWS: [Row; 13] = [
    HANGING,
    Row { asked: Hangs::Unasked, text: "seed 3 exited 0 faulted 0 running 2\nseed 4 exited 0 faulted 0 running 2\n",
        status: RunStatus::Of(Status::Done), failure: None, ..HANGING },
    Row { asked: Hangs::Unasked, exit: Exit::Must, text: "seed 3 exited 0 faulted 0 running 2\nseed 4 exited 0 faulted 0 running 2\n",
        status: RunStatus::Of(Status::Faulted), ..HANGING },
    Row { report: Report::Failures, ..HANGING },
    Row { report: Report::Summary, text: "seeds 2 first 3 exited 0 faulted 0 running 2 hangs yes\n", ..HANGING },
    Row { form: Form::Json, report: Report::Failures,
        text: "{\"seed\":3,\"exited\":0,\"faulted\":0,\"running\":2,\"verdict\":null,\"hangs\":true}\n{\"seed\":4,\"exited\":0,\"faulted\":0,\"running\":2,\"verdict\":null,\"hangs\":true}\n", ..HANGING },
    Row { properties: BROKEN, report: Report::Summary, text: "seeds 2 first 3 exited 0 faulted 0 running 2 never-both broken hangs yes\n",
        status: RunStatus::Of(Status::Broken), ..HANGING },
    Row { words: FAULTS_AND_SPINS, steps: 100, report: Report::Causes, text: "seeds 2 first 3 exited 0 faulted 1 running 1 Break at 00010004 hangs yes\n",
        status: RunStatus::Of(Status::Faulted), ..HANGING },
    Row { words: FAULTS_AND_SPINS, report: Report::Summary, text: "seeds 2 first 3 exited 0 faulted 0 running 2 hangs yes\n", ..HANGING },
    Row { words: LEAVES, report: Report::Lines, text: "seed 3 exited 0 faulted 0 running 2 hangs no\nseed 4 exited 0 faulted 0 running 2 hangs no\n",
        status: RunStatus::Of(Status::Done), failure: None, ..HANGING },
    Row { words: LEAVES, report: Report::Failures, text: "", status: RunStatus::Of(Status::Done), failure: None, ..HANGING },
    Row { words: LEAVES, steps: 100, report: Report::Summary, text: "seeds 2 first 3 exited 2 faulted 0 running 0 hangs no\n",
        status: RunStatus::Of(Status::Done), failure: None, ..HANGING },
    Row { words: LEAVES, form: Form::Json, report: Report::Outcomes,
        text: "{\"seeds\":2,\"first\":3,\"exited\":0,\"faulted\":0,\"running\":2,\"verdict\":null,\"results\":[],\"hangs\":false}\n",
        status: RunStatus::Of(Status::Done), failure: None, ..HANGING },
];

fn rows() -> &'static [Row] {
    &ROWS
}

// The ELF file of a program of two words.
fn file_of(alloc: Global, words: [u32; 2]) -> Result<Vec<u8, Global>, AllocError> {
    let mut file = Vec::from_slice(alloc, &EXITS[..84])?;
    for word in &words {
        file.extend_from_slice(&word.to_le_bytes())?;
    }
    Ok(file)
}

impl Row {
    fn campaign(&self) -> Campaign {
        Campaign {
            first: 3,
            count: 2,
            steps: self.steps,
            draw: Draw::usual(),
            expect: Expect {
                rule: None,
                exit: self.exit,
            },
            properties: self.properties,
            hangs: self.asked,
            words: Words::NONE,
            report: self.report,
            form: self.form,
        }
    }

    // Whether a campaign ended so.
    fn is_end(&self, answer: Result<Finished, CommandFault>) -> bool {
        match answer {
            Ok(finished) => {
                finished.run_status() == self.status && finished.first_failure == self.failure
            }
            Err(_) => false,
        }
    }
}

// Whether a campaign of a row reports its text, and ends so.
fn is_reported(alloc: Global, row: &Row) -> Result<bool, AllocError> {
    let file = file_of(alloc, row.words)?;
    let mut sink = MemorySink::new(alloc);
    let answer = campaign_engine(
        &Alone,
        alloc,
        &[7, 9],
        Campaign {
            first: 3,
            count: 2,
            ..row.campaign()
        },
        &mut Unlimited,
        &mut MemorySource::new(&file),
        &mut sink,
        &mut Unheard,
    );
    Ok(row.is_end(answer) && sink.bytes() == row.text.as_bytes())
}

#[test]
fn hangs_are_reported(rt: HostRuntime) {
    for (number, row) in rows().iter().enumerate() {
        assert!(rt; is_reported(rt.alloc(), row) == Ok(true), "row {number}");
    }
}

// The line of the first failing run of a row's campaign, and how the campaign ends.
fn first_failing(alloc: Global, row: &Row) -> Option<(String, Finished)> {
    let file = file_of(alloc, row.words).ok()?;
    until_failure_engine(
        &Alone,
        alloc,
        &[7, 9],
        Campaign {
            first: 3,
            count: 2,
            ..row.campaign()
        },
        &mut Unlimited,
        &mut MemorySource::new(&file),
        &mut Unheard,
    )
    .ok()
}

// Whether a row's campaign stops with this line, and with the status of that run.
fn stops_with(alloc: Global, row: &Row, line: &str, status: RunStatus) -> bool {
    match first_failing(alloc, row) {
        Some((text, finished)) => text.as_str() == line && finished.run_status() == status,
        None => false,
    }
}

#[test]
fn first_hang_ends_a_campaign(rt: HostRuntime) {
    let line = "seed 3 exited 0 faulted 0 running 2 hangs yes\n";
    assert!(rt; stops_with(rt.alloc(), &ROWS[0], line, RunStatus::Hangs));
    assert!(rt; stops_with(rt.alloc(), &ROWS[9], "", RunStatus::Of(Status::Done)));
    let broken = "seed 3 exited 0 faulted 0 running 2 never-both broken hangs yes\n";
    assert!(rt; stops_with(rt.alloc(), &ROWS[6], broken, RunStatus::Of(Status::Broken)));
}

// A seed's run of this program, of which it is decided whether it hangs.
struct OneSeed {
    words: [u32; 2],
    hangs: bool,
}

impl Call for OneSeed {
    fn answer<A: Allocator + Copy>(&self, alloc: A, host: Global) -> Result<bool, AllocError> {
        let image = writable_program(host, &self.words)?;
        let Ok(inputs) = Inputs::new(&[7, 9]) else {
            return Ok(false);
        };
        let start: Machine<FlatStore<A>, A> = Machine::start(alloc, &image, &inputs)?;
        let end = run_seed(alloc, &start, &inputs, HANGING.campaign(), 3)?;
        Ok(end.ending.hangs == Some(self.hangs))
    }
}

#[test]
fn each_refused_request_is_told(rt: HostRuntime) {
    assert!(rt;
        tried(
            rt.alloc(),
            &OneSeed {
                words: SPINS,
                hangs: true
            }
        )
        .is_ok()
    );
    assert!(rt;
        tried(
            rt.alloc(),
            &OneSeed {
                words: LEAVES,
                hangs: false
            }
        )
        .is_ok()
    );
}
