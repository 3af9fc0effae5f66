//! Campaigns in which properties of one's own are judged: lines, rows, the status and the first
//! failure.
use byte_io::{MemorySink, MemorySource, Status, Unheard};
use campaign_runs::{Alone, Campaign, Form, Hangs, Properties, Report, Words};
use cmd_campaign::{Finished, Unlimited, campaign_engine, until_failure_engine};
use object_library::Kind;
use outcome::{Exit, Expect};
use program_open::CommandFault;
use property_judge::Property;
use sched_draw::Draw;
use std::alloc::{AllocError, Global};
use test_images::object_file;

// At the start both harts are somewhere, and none is in the last word.
const ANYWHERE: Property = Property::NeverBoth {
    from: 0,
    to: u32::MAX,
};

const LAST: Property = Property::NeverBoth {
    from: 0xffff_fff8,
    to: 0xffff_fffc,
};

// Two seeds of two harts of Swap without a step: how they are reported under properties, and how
// the campaign ends.
struct Row {
    form: Form,
    report: Report,
    rule: Option<Kind>,
    properties: Properties,
    text: &'static str,
    status: Status,
    failure: Option<u64>,
}

const BROKEN: Properties = Properties {
    first: Some(ANYWHERE),
    second: None,
};

const KEPT: Properties = Properties {
    first: None,
    second: Some(LAST),
};

const BOTH: Properties = Properties {
    first: Some(ANYWHERE),
    second: Some(LAST),
};

#[rattlefmt::skip]
const ROWS: [Row; 11] = [
    Row { form: Form::Text, report: Report::Lines, rule: None, properties: BROKEN, status: Status::Broken, failure: Some(3),
        text: "seed 3 exited 0 faulted 0 running 2 never-both broken\nseed 4 exited 0 faulted 0 running 2 never-both broken\n" },
    Row { form: Form::Text, report: Report::Lines, rule: Some(Kind::Swap), properties: KEPT, status: Status::Done, failure: None,
        text: "seed 3 exited 0 faulted 0 running 2 kept never-both kept\nseed 4 exited 0 faulted 0 running 2 kept never-both kept\n" },
    Row { form: Form::Text, report: Report::Failures, rule: Some(Kind::Swap), properties: BOTH, status: Status::Broken, failure: Some(3),
        text: "seed 3 exited 0 faulted 0 running 2 kept never-both broken never-both kept\nseed 4 exited 0 faulted 0 running 2 kept never-both broken never-both kept\n" },
    Row { form: Form::Text, report: Report::Failures, rule: None, properties: KEPT, status: Status::Done, failure: None, text: "" },
    Row { form: Form::Text, report: Report::Summary, rule: Some(Kind::Swap), properties: BROKEN, status: Status::Broken, failure: Some(3),
        text: "seeds 2 first 3 exited 0 faulted 0 running 2 kept never-both broken\n" },
    Row { form: Form::Text, report: Report::Summary, rule: None, properties: Properties::NONE, status: Status::Done, failure: None,
        text: "seeds 2 first 3 exited 0 faulted 0 running 2\n" },
    Row { form: Form::Text, report: Report::Outcomes, rule: None, properties: KEPT, status: Status::Done, failure: None,
        text: "seeds 2 first 3 exited 0 faulted 0 running 2 never-both kept\n" },
    Row { form: Form::Text, report: Report::Causes, rule: None, properties: BROKEN, status: Status::Broken, failure: Some(3),
        text: "seeds 2 first 3 exited 0 faulted 0 running 2 never-both broken\n" },
    Row { form: Form::Json, report: Report::Lines, rule: None, properties: Properties::NONE, status: Status::Done, failure: None,
        text: "{\"seed\":3,\"exited\":0,\"faulted\":0,\"running\":2,\"verdict\":null}\n{\"seed\":4,\"exited\":0,\"faulted\":0,\"running\":2,\"verdict\":null}\n" },
    Row { form: Form::Json, report: Report::Failures, rule: Some(Kind::Swap), properties: BOTH, status: Status::Broken, failure: Some(3),
        text: "{\"seed\":3,\"exited\":0,\"faulted\":0,\"running\":2,\"verdict\":\"kept\",\"properties\":[{\"kind\":\"never-both\",\"verdict\":\"broken\"},{\"kind\":\"never-both\",\"verdict\":\"kept\"}]}\n{\"seed\":4,\"exited\":0,\"faulted\":0,\"running\":2,\"verdict\":\"kept\",\"properties\":[{\"kind\":\"never-both\",\"verdict\":\"broken\"},{\"kind\":\"never-both\",\"verdict\":\"kept\"}]}\n" },
    Row { form: Form::Json, report: Report::Causes, rule: None, properties: KEPT, status: Status::Done, failure: None,
        text: "{\"seeds\":2,\"first\":3,\"exited\":0,\"faulted\":0,\"running\":2,\"verdict\":null,\"properties\":[{\"kind\":\"never-both\",\"verdict\":\"kept\"}],\"faults\":[]}\n" },
];

impl Row {
    fn campaign(&self) -> Campaign {
        Campaign {
            first: 3,
            count: 2,
            steps: 0,
            draw: Draw::usual(),
            expect: Expect {
                rule: self.rule,
                exit: Exit::May,
            },
            properties: self.properties,
            hangs: Hangs::Unasked,
            words: Words::NONE,
            report: self.report,
            form: self.form,
        }
    }
}

// Whether a campaign ended so.
fn is_end(row: &Row, answer: Result<Finished, CommandFault>) -> bool {
    match answer {
        Ok(finished) => finished.status == row.status && finished.first_failure == row.failure,
        Err(_) => false,
    }
}

// Whether a campaign of a row reports its text.
fn is_reported(alloc: Global, row: &Row) -> Result<bool, AllocError> {
    let file = object_file(alloc, Kind::Swap)?;
    let mut sink = MemorySink::new(alloc);
    let answer = campaign_engine(
        &Alone,
        alloc,
        &[7, 9],
        Campaign {
            first: 3,
            count: 2,
            ..row.campaign()
        },
        &mut Unlimited,
        &mut MemorySource::new(&file),
        &mut sink,
        &mut Unheard,
    );
    Ok(is_end(row, answer) && sink.bytes() == row.text.as_bytes())
}

#[test]
fn properties_are_reported(rt: HostRuntime) {
    for (number, row) in ROWS.iter().enumerate() {
        assert!(rt; is_reported(rt.alloc(), row) == Ok(true), "row {number}");
    }
}

// What the first failing run of a row's campaign is told as.
fn first_failing(alloc: Global, row: &Row) -> Option<String> {
    let file = object_file(alloc, Kind::Swap).ok()?;
    let answer = until_failure_engine(
        &Alone,
        alloc,
        &[7, 9],
        Campaign {
            first: 3,
            count: 2,
            ..row.campaign()
        },
        &mut Unlimited,
        &mut MemorySource::new(&file),
        &mut Unheard,
    );
    match answer {
        Ok((text, _)) => Some(text),
        Err(_) => None,
    }
}

// Whether it is told so.
fn is_first(alloc: Global, row: &Row, text: &str) -> bool {
    match first_failing(alloc, row) {
        Some(found) => found.as_str() == text,
        None => false,
    }
}

#[test]
fn first_broken_property_ends_a_campaign(rt: HostRuntime) {
    let line = "seed 3 exited 0 faulted 0 running 2 never-both broken\n";
    assert!(rt; is_first(rt.alloc(), &ROWS[0], line));
    assert!(rt; is_first(rt.alloc(), &ROWS[3], ""));
    let object =
        "{\"seed\":3,\"exited\":0,\"faulted\":0,\"running\":2,\"verdict\":\"kept\",\"properties\":[{\"kind\":\"never-both\",\"verdict\":\"broken\"},{\"kind\":\"never-both\",\"verdict\":\"kept\"}]}\n";
    assert!(rt; is_first(rt.alloc(), &ROWS[9], object));
}
