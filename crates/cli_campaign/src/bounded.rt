//! Runs `campaign --preemptions`.

ghost use Rattle.std.specs.Prelude.{◌+◌, ◌-◌, ◌<◌, ◌^◌, IfOk};

use crate::campaign::{form_of, read_expect, why_no_report};
use crate::properties::{PropertyTexts, read_properties, show_properties};
use byte_io::{MemorySource, Progress, Source, Status};
use cli_orders::CampaignOrder;
use cli_report::{
    Audience, RunFiles, WIPE, bad_line, inputs_said, open_one, print_text, say_why, wipe_line,
};
use cli_values::{BOUNDS, read_bounds, read_report};
use cmd_bounded::{
    BoundedCampaign, Properties, Report, bounded_choices_engine, bounded_engine,
    bounded_until_engine,
};
use program_open::CommandFault;
use std::rt::Files;

// Why a report up to the first failure has no counts.
pub(crate) const UNTIL_OR_SUMMARY: &str =
    "--until-failure prints one line, and --summary none: write one of the two";

// How many schedules are run before a person is told again.
const SCHEDULES_AT_ONCE: u64 = 1 << 10;

// Shows a person how far the runs are.
#[derive(Drop)]
struct Line<'a, R> {
    rt: &'a R,
    audience: Audience,
    // Whether anything was shown.
    is_shown: bool,
}

impl<'a, R: Eprint> Progress for Line<'a, R> {
    fn seeds_done(&mut self, done: u64, bad: u64) {
        if done % SCHEDULES_AT_ONCE == 0 && self.audience.sees_progress() {
            self.is_shown = true;
            // If standard error is closed, nobody sees it.
            let _ = eprint!(self.rt; "{WIPE}{done} schedules done, {bad} that failed");
        }
    }
}

// Whether options say how choices are drawn.
fn draws_choices(order: &CampaignOrder) -> bool {
    order.draw.is_some() || order.within.is_some() || order.refusals.is_some()
}

// Refuses options that make no sense for schedules that are not drawn.
fn refuse_others<R: Print + Eprint>(rt: &R, order: &CampaignOrder) -> Result<(), Status> {
    if draws_choices(order) || order.jobs.is_some() {
        return Err(bad_line(
            rt,
            "--preemptions draws no choices and uses one thread: --schedule, --within, --refusals and --jobs don't go with it",
        ));
    }
    if order.choices_of.is_some() && (order.first.is_some() || order.count.is_some()) {
        return Err(bad_line(
            rt,
            "--choices-of names the schedule: --first and --count don't go with it",
        ));
    }
    Ok(())
}

// The runs that an order asks for, yet without its properties, or the status of an invalid line.
fn read_bounded<R: Print + Eprint>(
    rt: &R,
    order: &CampaignOrder,
    preemptions: &str,
) -> Result<BoundedCampaign, Status>
    ensures { IfOk result (λ campaign. campaign.first + campaign.count < 2 ^ 64) }
{
    let expect = read_expect(rt, order)?;
    let first = match order.choices_of {
        Some(number) => Some(number),
        None => order.first,
    };
    let Some(numbers) = read_bounds(first, order.count, order.steps, preemptions) else {
        return Err(bad_line(rt, BOUNDS));
    };
    let Some(report) = read_report(
        order.failures,
        order.summary,
        order.outcomes,
        order.by_cause,
    ) else {
        return Err(bad_line(rt, why_no_report(order)));
    };
    if order.until_failure && order.summary {
        return Err(bad_line(rt, UNTIL_OR_SUMMARY));
    }
    Ok(BoundedCampaign {
        first: numbers.first,
        // No schedule has the number 2^64 - 1.
        count: numbers.count.min(u64::MAX - numbers.first),
        steps: numbers.steps,
        preemptions: numbers.preemptions,
        expect,
        properties: Properties::NONE,
        report,
        form: form_of(order),
    })
}

/// Runs a program under every schedule with a bounded number of preemptions, or prints the choices
/// of one. A person sees the progress.
pub(crate) fn obey_bounded<R: Files + AllocGlobal + Print + Eprint>(
    rt: &R,
    audience: Audience,
    order: &CampaignOrder,
    preemptions: &str,
) -> Result<Status, Status> {
    refuse_others(rt, order)?;
    let inputs = inputs_said(rt, order.inputs)?;
    let campaign = read_bounded(rt, order, preemptions)?;
    let mut program = open_one(rt, audience, order.file)?;
    if order.has_properties() {
        return print_judged(
            rt,
            audience,
            order,
            preemptions,
            &inputs,
            campaign,
            &mut program,
        );
    }
    print_bounded(
        rt,
        audience,
        order,
        preemptions,
        &inputs,
        campaign,
        &mut program,
    )
}

// Reads the program, since the order's properties name its symbols, and prints what is asked of runs
// in which they are judged.
fn print_judged<R: Files + AllocGlobal + Print + Eprint, P: Source>(
    rt: &R,
    audience: Audience,
    order: &CampaignOrder,
    preemptions: &str,
    inputs: &[u32],
    campaign: BoundedCampaign,
    program: &mut P,
) -> Result<Status, Status>
    requires fits { campaign.first + campaign.count < 2 ^ 64 }
    requires program_counts { P.failures program.old < 2 ^ 64 - 1 }
{
    let texts = PropertyTexts::of_campaign(order);
    let (bytes, properties) = read_properties(rt, audience, order.file, texts, inputs, program)?;
    let mut campaign = campaign;
    campaign.properties = properties;
    let mut source = MemorySource::new(&bytes);
    print_bounded(
        rt,
        audience,
        order,
        preemptions,
        inputs,
        campaign,
        &mut source,
    )
}

// Prints the choices of a schedule, or the report of the runs.
fn print_bounded<R: Files + AllocGlobal + Print + Eprint, P: Source>(
    rt: &R,
    audience: Audience,
    order: &CampaignOrder,
    preemptions: &str,
    inputs: &[u32],
    campaign: BoundedCampaign,
    program: &mut P,
) -> Result<Status, Status>
    requires fits { campaign.first + campaign.count < 2 ^ 64 }
    requires program_counts { P.failures program.old < 2 ^ 64 - 1 }
{
    let answer = if order.choices_of.is_some() {
        print_choices(rt, inputs, campaign, program)
    } else {
        print_report(rt, audience, order, preemptions, inputs, campaign, program)
    };
    match answer {
        Ok(status) => Ok(status),
        Err(fault) => {
            let files = RunFiles::of_program(order.file, inputs.len());
            Err(say_why(rt, audience, files, fault))
        }
    }
}

// Prints the choices of a schedule.
fn print_choices<R: AllocGlobal + Print + Eprint, P: Source>(
    rt: &R,
    inputs: &[u32],
    campaign: BoundedCampaign,
    program: &mut P,
) -> Result<Status, CommandFault>
    requires program_counts { P.failures program.old < 2 ^ 64 - 1 }
{
    let Some(text) = bounded_choices_engine(rt.alloc(), inputs, campaign, program)? else {
        return Ok(bad_line(rt, "--choices-of names a schedule that isn't there"));
    };
    print_text(rt, text.as_bytes())?;
    Ok(Status::Done)
}

// Prints the report of the runs, with hints for a person.
fn print_report<R: AllocGlobal + Print + Eprint, P: Source>(
    rt: &R,
    audience: Audience,
    order: &CampaignOrder,
    preemptions: &str,
    inputs: &[u32],
    campaign: BoundedCampaign,
    program: &mut P,
) -> Result<Status, CommandFault>
    requires fits { campaign.first + campaign.count < 2 ^ 64 }
    requires program_counts { P.failures program.old < 2 ^ 64 - 1 }
{
    let mut line = Line {
        rt,
        audience,
        is_shown: false,
    };
    let answer = if order.until_failure {
        bounded_until_engine(rt.alloc(), inputs, campaign, program, &mut line)
    } else {
        bounded_engine(rt.alloc(), inputs, campaign, program, &mut line)
    };
    if line.is_shown {
        wipe_line(rt, audience);
    }
    let (text, finished) = answer?;
    print_text(rt, text.as_bytes())?;
    if let Some(number) = finished.first_failure {
        if audience.is_told() {
            let _ = show_commands(rt, order, preemptions, number);
        }
    }
    Ok(finished.status)
}

// Shows the commands for a closer look at the run over a schedule.
fn show_commands<R: Eprint>(
    rt: &R,
    order: &CampaignOrder,
    preemptions: &str,
    number: u64,
) -> Option<()> {
    let (file, inputs, steps) = (order.file, order.inputs, order.steps);
    eprintln!(rt;
        "schedule {number} is the first such one. To look into it:\n    \
         rvcons campaign {file} --inputs {inputs} --preemptions {preemptions} --steps {steps} --choices-of {number} >failing.choices\n    \
         rvcons debug {file} --inputs {inputs} --choices failing.choices"
    )
    .ok()?;
    if order.has_properties() {
        eprint!(rt; "    rvcons run {file} --inputs {inputs} --choices failing.choices").ok()?;
        show_properties(rt, order)?;
        eprint!(rt; "\n").ok()?;
    }
    Some(())
}
