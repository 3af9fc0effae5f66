//! Each request for memory of a tally, of the counting of a block's runs, of a summary's text and
//! of a block's failures refused in turn. The runs themselves ask in threads, which can't be handed
//! such an allocator.
ghost use Rattle.std.specs.Prelude.{◌≡◌, IfOk, length};

use byte_io::MemorySink;
use campaign_runs::{
    Campaign, Ending, Form, Hangs, Properties, Report, SeedCount, SeedEnd, Tally, Words,
};
use cmd_campaign::{count_ends_of, push_lines, record_block, summary_text};
use hart_step::{Cause, Hart, HartState};
use object_library::{Kind, Verdict};
use outcome::{Exit, Expect, Outcome};
use program_open::CommandFault;
use sched_draw::Draw;
use sched_run::Chosen;
use std::alloc::{AllocError, Allocator, Global};
use test_refusing::{Call, tried};

// No rule, and harts may run on.
const PLAIN: Expect = Expect {
    rule: None,
    exit: Exit::May,
};

// The rule of Swap.
const RULED: Expect = Expect {
    rule: Some(Kind::Swap),
    exit: Exit::May,
};

// A campaign of the two runs below.
fn campaign_with(expect: Expect, form: Form, report: Report) -> Campaign {
    Campaign {
        first: 5,
        count: 2,
        steps: 0,
        draw: Draw::usual(),
        expect,
        properties: Properties::NONE,
        hangs: Hangs::Unasked,
        words: Words::NONE,
        report,
        form,
    }
}

// A hart that ended so, with a number in a0 and 1 in a1.
fn hart(state: HartState, a0: u32) -> Hart {
    let mut registers = [0; 32];
    registers[10] = a0;
    registers[11] = 1;
    Hart {
        registers,
        pc: 0x0001_0000,
        state,
    }
}

// How a run of two harts ended in which the second one was chosen.
fn end<A: Allocator + Copy>(
    alloc: A,
    seed: u64,
    campaign: Campaign,
    harts: &[Hart],
) -> Result<SeedEnd<A>, AllocError> {
    let mut chosen = Chosen::new();
    chosen.add(1);
    let outcome = campaign.expect.judge(alloc, &[7, 9], &chosen, harts)?;
    let ending = Ending::of(alloc, campaign.form, campaign.report, outcome, &[], harts)?;
    Ok(SeedEnd { seed, ending })
}

// Two such runs: the second hart stands as if it had exited, and in the second run the first one
// as if it had faulted.
fn ends<A: Allocator + Copy>(alloc: A, campaign: Campaign) -> Result<Vec<SeedEnd<A>, A>, AllocError>
    ensures { IfOk result (λ ends. length ends.items ≡ 2) }
{
    let exited = hart(HartState::Exited(0), 9);
    let faulted = hart(HartState::Faulted(Cause::Break), 7);
    let first = end(alloc, 5, campaign, &[hart(HartState::Running, 7), exited])?;
    let second = end(alloc, 6, campaign, &[faulted, exited])?;
    let mut ends = Vec::new(alloc);
    ends.push(first)?;
    ends.push(second)?;
    Ok(ends)
}

// An ending of one hart.
fn ending<A: Allocator + Copy>(alloc: A) -> Result<Ending<A>, AllocError> {
    let words = String::from_str(alloc, " 0:a0=00000007 0:a1=00000001")?;
    Ok(Ending {
        outcome: Outcome {
            exited: 1,
            faulted: 0,
            running: 0,
            verdict: Some(Verdict::Kept),
        },
        properties: None,
        hangs: None,
        words,
    })
}

// The tally of two seeds of one ending.
#[derive(Clone, Copy)]
struct Counting;

impl Call for Counting {
    fn answer<A: Allocator + Copy>(&self, alloc: A, _host: Global) -> Result<bool, AllocError> {
        let mut tally = Tally::new(alloc);
        tally.add(ending(alloc)?, 3)?;
        tally.add(ending(alloc)?, 8)?;
        if tally.len() != 1 || tally.is_empty() {
            return Ok(false);
        }
        let (ending, count) = tally.row(0);
        Ok(ending.outcome.exited == 1 && count == SeedCount { seeds: 2, first: 3 })
    }
}

// The summaries of two such runs, by the results of harts and by their faults.
const OUTCOMES: &str = "seeds 1 first 5 exited 1 faulted 0 running 1 1:a0=00000009 1:a1=00000001\n\
     seeds 1 first 6 exited 1 faulted 1 running 0 1:a0=00000009 1:a1=00000001\n";

const CAUSES: &str = "seeds 1 first 5 exited 1 faulted 0 running 1\n\
     seeds 1 first 6 exited 1 faulted 1 running 0 Break at 00010000\n";

// The same as objects.
const RESULT_OBJECTS: &str =
    "{\"seeds\":1,\"first\":5,\"exited\":1,\"faulted\":0,\"running\":1,\"verdict\":null,\"results\":[{\"hart\":1,\"a0\":9,\"a1\":1}]}\n\
     {\"seeds\":1,\"first\":6,\"exited\":1,\"faulted\":1,\"running\":0,\"verdict\":null,\"results\":[{\"hart\":1,\"a0\":9,\"a1\":1}]}\n";

const FAULT_OBJECTS: &str =
    "{\"seeds\":1,\"first\":5,\"exited\":1,\"faulted\":0,\"running\":1,\"verdict\":null,\"faults\":[]}\n\
     {\"seeds\":1,\"first\":6,\"exited\":1,\"faulted\":1,\"running\":0,\"verdict\":null,\"faults\":[{\"cause\":\"Break\",\"pc\":65536}]}\n";

// The summary of a block.
#[derive(Clone, Copy)]
struct Summing;

impl Call for Summing {
    fn answer<A: Allocator + Copy>(&self, alloc: A, _host: Global) -> Result<bool, AllocError> {
        let ends = ends(alloc, campaign_with(PLAIN, Form::Text, Report::Outcomes))?;
        let mut tally = Tally::new(alloc);
        count_ends_of(alloc, &mut tally, &ends)?;
        let text = summary_text(alloc, Form::Text, &tally)?;
        Ok(text.as_str() == OUTCOMES)
    }
}

// Refused memory, or another fault.
fn refused(fault: CommandFault) -> Result<bool, AllocError> {
    match fault {
        CommandFault::Memory => Err(AllocError),
        _ => Ok(false),
    }
}

// What is recorded of a block: the lines that are written, and the seeds that are counted.
#[derive(Clone, Copy)]
struct Recording {
    form: Form,
    report: Report,
    lines: &'static str,
    text: &'static str,
}

impl Call for Recording {
    fn answer<A: Allocator + Copy>(&self, alloc: A, host: Global) -> Result<bool, AllocError> {
        let campaign = campaign_with(PLAIN, self.form, self.report);
        let ends = ends(alloc, campaign)?;
        let mut tally = Tally::new(alloc);
        let mut sink = MemorySink::new(host);
        match record_block(alloc, campaign, &ends, &mut tally, &mut sink) {
            Ok(()) => {}
            Err(fault) => return refused(fault),
        }
        let text = summary_text(alloc, self.form, &tally)?;
        Ok(sink.bytes() == self.lines.as_bytes() && text.as_str() == self.text)
    }
}

#[rattlefmt::skip]
const RECORDINGS: [Recording; 8] = [
    Recording { form: Form::Text, report: Report::Lines, text: "",
        lines: "seed 5 exited 1 faulted 0 running 1\nseed 6 exited 1 faulted 1 running 0\n" },
    Recording { form: Form::Text, report: Report::Failures, text: "", lines: "seed 6 exited 1 faulted 1 running 0\n" },
    Recording { form: Form::Text, report: Report::Outcomes, text: OUTCOMES, lines: "" },
    Recording { form: Form::Text, report: Report::Causes, text: CAUSES, lines: "" },
    Recording { form: Form::Json, report: Report::Lines, text: "",
        lines: "{\"seed\":5,\"exited\":1,\"faulted\":0,\"running\":1,\"verdict\":null}\n{\"seed\":6,\"exited\":1,\"faulted\":1,\"running\":0,\"verdict\":null}\n" },
    Recording { form: Form::Json, report: Report::Failures, text: "",
        lines: "{\"seed\":6,\"exited\":1,\"faulted\":1,\"running\":0,\"verdict\":null}\n" },
    Recording { form: Form::Json, report: Report::Outcomes, text: RESULT_OBJECTS, lines: "" },
    Recording { form: Form::Json, report: Report::Causes, text: FAULT_OBJECTS, lines: "" },
];

// The failures of a block, without a rule and with one.
#[derive(Clone, Copy)]
struct Failures;

impl Call for Failures {
    fn answer<A: Allocator + Copy>(&self, alloc: A, _host: Global) -> Result<bool, AllocError> {
        let plain = ends(alloc, campaign_with(PLAIN, Form::Text, Report::Failures))?;
        let ruled = ends(alloc, campaign_with(RULED, Form::Text, Report::Failures))?;
        let mut text = String::new(alloc);
        push_lines(&mut text, Form::Text, Report::Failures, PLAIN, &plain)?;
        push_lines(&mut text, Form::Text, Report::Failures, RULED, &ruled)?;
        // Neither form has words of harts here.
        push_lines(&mut text, Form::Json, Report::Failures, RULED, &ruled)?;
        let wanted =
            "seed 6 exited 1 faulted 1 running 0\nseed 6 exited 1 faulted 1 running 0 broken\n\
             {\"seed\":6,\"exited\":1,\"faulted\":1,\"running\":0,\"verdict\":\"broken\"}\n";
        Ok(text.as_str() == wanted)
    }
}

#[test]
fn each_refused_request_is_told(rt: HostRuntime) {
    assert!(rt; tried(rt.alloc(), &Counting) == Ok(()));
    assert!(rt; tried(rt.alloc(), &Summing) == Ok(()));
    assert!(rt; tried(rt.alloc(), &Failures) == Ok(()));
}

#[test]
fn each_refused_request_of_a_record_is_told(rt: HostRuntime) {
    for row in &RECORDINGS {
        assert!(rt; tried(rt.alloc(), row) == Ok(()), "{}", row.lines);
    }
}
