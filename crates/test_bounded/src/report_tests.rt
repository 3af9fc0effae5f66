//! What no clause says of the report of a range of schedules: that its calls succeed where memory
//! is left, with each request refused in turn.
ghost use Rattle.std.specs.Prelude.{◌+◌, ◌<◌, ◌^◌};

use byte_io::{MemorySource, Status, Unheard};
use cmd_bounded::{
    BoundedCampaign, Exit, Expect, Finished, Form, Properties, Report, bounded_choices_engine,
    bounded_engine, bounded_until_engine,
};
use object_library::Kind;
use program_open::CommandFault;
use property_judge::Property;
use std::alloc::{AllocError, Allocator, Global};
use test_images::object_file;
use test_refusing::{Call, tried};

const LINES: &str =
    "schedule 1 exited 2 faulted 0 running 0 kept\nschedule 2 exited 2 faulted 0 running 0 kept\n\
     covered 2 schedules from 1 on, with at most 1 preemptions and 40 choices; more are left\n";

const SUMMARY: &str = "schedules 2 first 1 exited 2 faulted 0 running 0 kept\n\
     covered 2 schedules from 1 on, with at most 1 preemptions and 40 choices; more are left\n";

const NO_FAILURES: &str =
    "covered 2 schedules from 1 on, with at most 1 preemptions and 40 choices; more are left\n";

const LINE_OBJECTS: &str =
    "{\"schedule\":1,\"exited\":2,\"faulted\":0,\"running\":0,\"verdict\":\"kept\"}\n\
     {\"schedule\":2,\"exited\":2,\"faulted\":0,\"running\":0,\"verdict\":\"kept\"}\n\
     {\"covered\":2,\"first\":1,\"preemptions\":1,\"choices\":40,\"more_left\":true}\n";

const SUMMARY_OBJECTS: &str =
    "{\"schedules\":2,\"first\":1,\"exited\":2,\"faulted\":0,\"running\":0,\"verdict\":\"kept\"}\n\
     {\"covered\":2,\"first\":1,\"preemptions\":1,\"choices\":40,\"more_left\":true}\n";

const UNTIL_BROKEN: &str = "schedule 1 exited 2 faulted 0 running 0 kept never-both broken\n\
     covered 1 schedules from 1 on, with at most 1 preemptions and 40 choices; more are left\n";

// Two schedules of the object swap, which keeps its rule and exits in each.
fn two_of(report: Report, form: Form) -> BoundedCampaign
    ensures { result.first + result.count < 2 ^ 64 }
{
    BoundedCampaign {
        first: 1,
        count: 2,
        steps: 40,
        preemptions: 1,
        expect: Expect {
            rule: Some(Kind::Swap),
            exit: Exit::Must,
        },
        properties: Properties::NONE,
        report,
        form,
    }
}

// A report in a form, and its text.
#[derive(Clone, Copy)]
struct Two {
    report: Report,
    form: Form,
    text: &'static str,
}

impl Call for Two {
    fn answer<A: Allocator + Copy>(&self, alloc: A, host: Global) -> Result<bool, AllocError> {
        let file = object_file(host, Kind::Swap)?;
        let mut program = MemorySource::new(&file);
        let campaign = two_of(self.report, self.form);
        match bounded_engine(alloc, &[7, 9], campaign, &mut program, &mut Unheard) {
            Ok((text, finished)) => Ok(is_answer(text.as_str(), self.text, finished)),
            Err(CommandFault::Memory) => Err(AllocError),
            Err(_) => Ok(false),
        }
    }
}

// The report up to the first run that has failed. Both harts begin with the first instruction, so
// that each run breaks a property of it.
struct Until;

impl Call for Until {
    fn answer<A: Allocator + Copy>(&self, alloc: A, host: Global) -> Result<bool, AllocError> {
        let file = object_file(host, Kind::Swap)?;
        let mut program = MemorySource::new(&file);
        let mut campaign = two_of(Report::Lines, Form::Text);
        campaign.properties.first = Some(Property::NeverBoth {
            from: 0x10000,
            to: 0x10004,
        });
        match bounded_until_engine(alloc, &[7, 9], campaign, &mut program, &mut Unheard) {
            Ok((text, finished)) => Ok(
                text.as_str() == UNTIL_BROKEN
                    && finished.status == Status::Broken
                    && finished.first_failure == Some(1),
            ),
            Err(CommandFault::Memory) => Err(AllocError),
            Err(_) => Ok(false),
        }
    }
}

// The same where no run fails.
struct UntilTheEnd;

impl Call for UntilTheEnd {
    fn answer<A: Allocator + Copy>(&self, alloc: A, host: Global) -> Result<bool, AllocError> {
        let file = object_file(host, Kind::Swap)?;
        let mut program = MemorySource::new(&file);
        let campaign = two_of(Report::Lines, Form::Text);
        match bounded_until_engine(alloc, &[7, 9], campaign, &mut program, &mut Unheard) {
            Ok((text, finished)) => Ok(is_answer(text.as_str(), NO_FAILURES, finished)),
            Err(CommandFault::Memory) => Err(AllocError),
            Err(_) => Ok(false),
        }
    }
}

// Whether a text is the one that is wanted, and no run has failed.
fn is_answer(text: &str, wanted: &str, finished: Finished) -> bool {
    text == wanted && finished.status == Status::Done && finished.first_failure.is_none()
}

// The choices of the same schedule.
struct Choices;

impl Call for Choices {
    fn answer<A: Allocator + Copy>(&self, alloc: A, host: Global) -> Result<bool, AllocError> {
        let file = object_file(host, Kind::Swap)?;
        let mut program = MemorySource::new(&file);
        match bounded_choices_engine(
            alloc,
            &[7, 9],
            two_of(Report::Lines, Form::Text),
            &mut program,
        ) {
            Ok(text) => Ok(text.is_some()),
            Err(CommandFault::Memory) => Err(AllocError),
            Err(_) => Ok(false),
        }
    }
}

fn is_told(alloc: Global, report: Report, form: Form, text: &'static str) -> bool {
    tried(alloc, &Two { report, form, text }).is_ok()
}

#[test]
fn each_refused_request_of_lines_is_told(rt: HostRuntime) {
    assert!(rt; is_told(rt.alloc(), Report::Lines, Form::Text, LINES));
}

#[test]
fn each_refused_request_of_failures_is_told(rt: HostRuntime) {
    assert!(rt; is_told(rt.alloc(), Report::Failures, Form::Text, NO_FAILURES));
}

#[test]
fn each_refused_request_of_a_summary_is_told(rt: HostRuntime) {
    assert!(rt; is_told(rt.alloc(), Report::Summary, Form::Text, SUMMARY));
}

#[test]
fn each_refused_request_of_objects_is_told(rt: HostRuntime) {
    assert!(rt; is_told(rt.alloc(), Report::Lines, Form::Json, LINE_OBJECTS));
}

#[test]
fn each_refused_request_of_objects_of_outcomes_is_told(rt: HostRuntime) {
    assert!(rt; is_told(rt.alloc(), Report::Summary, Form::Json, SUMMARY_OBJECTS));
}

#[test]
fn each_refused_request_for_choices_is_told(rt: HostRuntime) {
    assert!(rt; tried(rt.alloc(), &Choices).is_ok());
}

#[test]
fn each_refused_request_up_to_a_failure_is_told(rt: HostRuntime) {
    assert!(rt; tried(rt.alloc(), &Until).is_ok());
}

#[test]
fn each_refused_request_where_no_run_fails_is_told(rt: HostRuntime) {
    assert!(rt; tried(rt.alloc(), &UntilTheEnd).is_ok());
}
