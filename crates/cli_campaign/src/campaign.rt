//! Runs `campaign`.

ghost use Rattle.std.specs.Prelude.{◌+◌, ◌-◌, ◌<◌, ◌≤◌, ◌^◌, IfOk, IfSome};

use crate::bounded::{UNTIL_OR_SUMMARY, obey_bounded};
use crate::exiting::{exit_of, hangs_said};
use crate::properties::{PropertyTexts, read_properties, show_properties};
use crate::seconds::{Seconds, say_seeds, seconds_said};
use crate::watching::Watching;
use crate::words::{read_words, refuse_word, show_words};
use byte_io::{MemorySource, Progress, Source, Status};
use cli_orders::CampaignOrder;
use cli_report::{
    Audience, EndsTold, Explained, RunFiles, StandardOutput, WIPE, bad_line, ends_running,
    explain_ends, explain_places, inputs_said, open_one, read_again, rule_said, say_why, wipe_line,
};
use cli_values::{
    JOBS, SeedNumbers, SeedPlan, read_draw, read_jobs, read_report, read_seed_numbers, seed_engine,
};
use cmd_campaign::{
    Campaign, Exit, Expect, Form, Hangs, Jobs, OnThreads, Properties, Report, RunStatus, Words,
    campaign_engine, until_failure_engine,
};
use program_open::{CommandFault, ProgramForm, write_text};
use sched_draw::Order;
use std::rt::{Clock, Files};
use std::thread::Threads;

// Shows a person how far a campaign is.
#[derive(Drop)]
struct Line<'a, R> {
    rt: &'a R,
    audience: Audience,
    // Number of seeds.
    count: u64,
    // What a bad seed is, as a sentence.
    bad: &'a str,
    // Whether anything was shown.
    is_shown: bool,
}

impl<'a, R: Eprint> Progress for Line<'a, R> {
    fn seeds_done(&mut self, done: u64, bad: u64) {
        if self.audience.sees_progress() {
            self.is_shown = true;
            // If standard error is closed, nobody sees it.
            let (count, what) = (self.count, self.bad);
            let _ = eprint!(self.rt; "{WIPE}{done} of {count} seeds done, {bad} {what}");
        }
    }
}

// How many threads do a campaign's runs, and how many seconds they may take, if that is said.
#[derive(Clone, Copy)]
struct Pace {
    jobs: Jobs,
    seconds: Option<u64>,
}

// What a bad seed is, as a sentence.
fn what_is_bad(order: &CampaignOrder, expect: Expect) -> &'static str {
    if order.has_properties() || order.hangs {
        return "that failed";
    }
    match (expect.rule, expect.exit) {
        (None, Exit::May) => "with a fault",
        (Some(_), Exit::May) => "with a broken rule",
        (_, Exit::Must) => "that failed",
    }
}

// What an order expects of each run, or the status of an invalid line.
pub(crate) fn read_expect<R: Print + Eprint>(
    rt: &R,
    order: &CampaignOrder,
) -> Result<Expect, Status> {
    let rule = rule_said(rt, order.rule)?;
    Ok(Expect {
        rule,
        exit: exit_of(order.must_exit),
    })
}

// The numbers of seeds and steps; `None` if one is invalid or too large.
fn read_numbers(order: &CampaignOrder) -> Option<SeedNumbers>
    ensures { IfSome result (λ numbers. numbers.first + numbers.count ≤ 2 ^ 64) }
{
    read_seed_numbers(order.first?, order.count?, order.steps)
}

// The campaign that an order asks for, yet without its properties and words, or the status of an
// invalid line.
fn read_campaign<R: Print + Eprint>(
    rt: &R,
    order: &CampaignOrder,
    hangs: Hangs,
) -> Result<Campaign, Status>
    ensures { IfOk result (λ campaign. campaign.first + campaign.count ≤ 2 ^ 64) }
{
    let expect = read_expect(rt, order)?;
    let Some(numbers) = read_numbers(order) else {
        return Err(bad_line(
            rt,
            "--first, --count and --steps take decimal numbers, first and count together at most 2^64, steps below 2^32, \
             as --first 0 --count 1000 --steps 40",
        ));
    };
    let Some(report) = read_report(
        order.failures,
        order.summary,
        order.outcomes,
        order.by_cause,
    ) else {
        return Err(bad_line(rt, why_no_report(order)));
    };
    if order.until_failure && order.summary {
        return Err(bad_line(rt, UNTIL_OR_SUMMARY));
    }
    let draw = match read_draw(order.draw, order.refusals, order.within) {
        Ok(draw) => draw,
        Err(fault) => return Err(bad_line(rt, fault.text())),
    };
    Ok(Campaign {
        first: numbers.first,
        count: numbers.count,
        steps: numbers.steps,
        draw,
        expect,
        properties: Properties::NONE,
        hangs,
        words: Words::NONE,
        report,
        form: form_of(order),
    })
}

// In which form an order's report is printed.
pub(crate) fn form_of(order: &CampaignOrder) -> Form {
    if order.json { Form::Json } else { Form::Text }
}

// Why options of a report don't go together.
pub(crate) fn why_no_report(order: &CampaignOrder) -> &'static str {
    if order.failures && order.summary {
        "--failures prints lines, and --summary none: write one of the two"
    } else if order.outcomes && order.by_cause {
        "--outcomes and --by-cause tell ends apart in two ways: write one of the two"
    } else if order.by_cause {
        "--by-cause goes with --summary alone"
    } else {
        "--outcomes goes with --summary alone"
    }
}

/// Runs a program under the schedule of each seed. A person sees the progress.
pub fn obey_campaign<R: Files + AllocGlobal + Print + Eprint + Threads + Sync + Clock>(
    rt: &R,
    audience: Audience,
    order: &CampaignOrder,
) -> Result<RunStatus, Status> {
    let hangs = hangs_said(rt, order)?;
    refuse_word(rt, order)?;
    let seconds = seconds_said(rt, order)?;
    if let Some(preemptions) = order.preemptions {
        let status = obey_bounded(rt, audience, order, preemptions)?;
        return Ok(RunStatus::Of(status));
    }
    let inputs = inputs_said(rt, order.inputs)?;
    let campaign = read_campaign(rt, order, hangs)?;
    let Some(jobs) = read_jobs(order.jobs) else {
        return Err(bad_line(rt, JOBS));
    };
    let pace = Pace { jobs, seconds };
    let mut program = open_one(rt, audience, order.file)?;
    if order.names_symbols() {
        return report_named(rt, audience, order, &inputs, campaign, pace, &mut program);
    }
    Ok(report_campaign(
        rt,
        audience,
        order,
        inputs.as_slice(),
        campaign,
        pace,
        &mut program,
    ))
}

// Reads the program, since the order's properties and words name its symbols, and reports the
// campaign with them.
fn report_named<R: Files + AllocGlobal + Print + Eprint + Threads + Sync + Clock, P: Source>(
    rt: &R,
    audience: Audience,
    order: &CampaignOrder,
    inputs: &[u32],
    campaign: Campaign,
    pace: Pace,
    program: &mut P,
) -> Result<RunStatus, Status>
    requires fits { campaign.first + campaign.count ≤ 2 ^ 64 }
    requires program_counts { P.failures program.old < 2 ^ 64 - 1 }
{
    let texts = PropertyTexts::of_campaign(order);
    let (bytes, properties) = read_properties(rt, audience, order.file, texts, inputs, program)?;
    let mut campaign = campaign;
    campaign.properties = properties;
    campaign.words = read_words(rt, order, &bytes)?;
    let mut source = MemorySource::new(&bytes);
    Ok(report_campaign(rt, audience, order, inputs, campaign, pace, &mut source))
}

// Runs a program under the schedule of each seed and reports it, with hints for a person.
fn report_campaign<R: Files + AllocGlobal + Print + Eprint + Threads + Sync + Clock, P: Source>(
    rt: &R,
    audience: Audience,
    order: &CampaignOrder,
    inputs: &[u32],
    campaign: Campaign,
    pace: Pace,
    program: &mut P,
) -> RunStatus
    requires fits { campaign.first + campaign.count ≤ 2 ^ 64 }
    requires program_counts { P.failures program.old < 2 ^ 64 - 1 }
{
    let names_places = campaign.report == Report::Causes
        && campaign.form == Form::Text
        && audience.is_told();
    let kept = if names_places {
        Some(Vec::new(rt.alloc()))
    } else {
        None
    };
    let mut sink = Watching::new(rt, audience, StandardOutput::new(rt), kept);
    let mut line = Line {
        rt,
        audience,
        count: campaign.count,
        bad: what_is_bad(order, campaign.expect),
        is_shown: false,
    };
    let runner = &OnThreads {
        rt,
        jobs: pace.jobs,
    };
    let mut limit = Seconds::new(rt, pace.seconds);
    let answer = if order.until_failure {
        match until_failure_engine(
            runner,
            rt.alloc(),
            inputs,
            campaign,
            &mut limit,
            program,
            &mut line,
        ) {
            Ok((text, finished)) => match write_text(&mut sink, text.as_bytes()) {
                Err(fault) if sink.inner().has_reader() => Err(fault),
                Ok(()) | Err(_) => Ok(finished),
            },
            Err(fault) => Err(fault),
        }
    } else {
        campaign_engine(
            runner,
            rt.alloc(),
            inputs,
            campaign,
            &mut limit,
            program,
            &mut sink,
            &mut line,
        )
    };
    if line.is_shown {
        wipe_line(rt, audience);
    }
    match answer {
        Ok(finished) => {
            say_seeds(rt, order, campaign.count, finished);
            if audience.is_told() {
                let _ = name_places(rt, order, sink.passed());
                if campaign.form == Form::Text {
                    let _ = show_words(rt, order, campaign.words);
                }
                let _ = match finished.first_failure {
                    Some(seed) => explain_seed(rt, order, inputs, campaign, seed),
                    None => explain_steps(rt, order, inputs, campaign),
                };
            }
            finished.run_status()
        }
        // Nobody asks for the rest, so the seeds that are left aren't run.
        Err(CommandFault::Write) if !sink.inner().has_reader() => RunStatus::Of(Status::Done),
        Err(fault) => {
            let files = RunFiles::of_program(order.file, inputs.len());
            RunStatus::Of(say_why(rt, audience, files, fault))
        }
    }
}

// Names the places of faults in a summary by cause, if it was kept.
fn name_places<R: Files + AllocGlobal + Eprint>(
    rt: &R,
    order: &CampaignOrder,
    summary: Option<&[u8]>,
) -> Option<()> {
    let summary = summary?;
    let program = read_again(rt, order.file)?;
    explain_places(rt, summary, &program)
}

// Shows a command for the run of a seed, up to the options that only some commands have.
fn show_command<R: Eprint>(
    rt: &R,
    name: &str,
    order: &CampaignOrder,
    campaign: Campaign,
    seed: u64,
) -> Option<()> {
    let (file, texts, steps) = (order.file, order.inputs, campaign.steps);
    eprint!(rt; "    rvcons {name} {file} --inputs {texts} --seed {seed} --steps {steps}").ok()?;
    if let Some(draw) = order.draw {
        eprint!(rt; " --schedule {draw}").ok()?;
    }
    if let Some(within) = order.within {
        eprint!(rt; " --within {within}").ok()?;
    }
    if let Some(refusals) = order.refusals {
        eprint!(rt; " --refusals {refusals}").ok()?;
    }
    Some(())
}

// Shows a command for the run of a seed, with all that is expected of the run; a hang is a failure
// by the option `hangs`.
fn show_judging<R: Eprint>(
    rt: &R,
    name: &str,
    hangs: &str,
    order: &CampaignOrder,
    campaign: Campaign,
    seed: u64,
) -> Option<()> {
    show_command(rt, name, order, campaign, seed)?;
    if let Some(rule) = order.rule {
        eprint!(rt; " --rule {rule}").ok()?;
    }
    if order.must_exit {
        eprint!(rt; " --must-exit").ok()?;
    }
    if order.hangs {
        eprint!(rt; " {hangs}").ok()?;
    }
    show_properties(rt, order)?;
    eprint!(rt; "\n").ok()
}

// Shows the commands for a closer look at the run of a seed.
fn show_commands<R: Eprint>(
    rt: &R,
    order: &CampaignOrder,
    campaign: Campaign,
    seed: u64,
) -> Option<()> {
    eprintln!(rt; "seed {seed} is the first such one. To look into it:").ok()?;
    show_command(rt, "debug", order, campaign, seed)?;
    eprint!(rt; "\n").ok()?;
    // Of properties run alone tells where they are broken, and of a hang on what the harts wait.
    if order.has_properties() || order.hangs {
        show_judging(rt, "run", "--hangs", order, campaign, seed)?;
    }
    show_judging(rt, "shrink", "--must-exit", order, campaign, seed)
}

// The program and the choices of a seed, which are made again.
fn seed_again<R: Files + AllocGlobal>(
    rt: &R,
    order: &CampaignOrder,
    inputs: &[u32],
    campaign: Campaign,
    seed: u64,
) -> Option<(Vec<u8>, String)> {
    let plan = SeedPlan {
        draw: campaign.draw,
        steps: campaign.steps,
        seed,
    };
    let program = read_again(rt, order.file)?;
    let mut source = MemorySource::new(&program);
    let (choices, _) = seed_engine(rt.alloc(), inputs, plan, &mut source).ok()?;
    Some((program, choices))
}

// Shows how to look into the first seed whose run has failed, and explains its end.
fn explain_seed<R: Files + AllocGlobal + Eprint>(
    rt: &R,
    order: &CampaignOrder,
    inputs: &[u32],
    campaign: Campaign,
    seed: u64,
) -> Option<()> {
    show_commands(rt, order, campaign, seed)?;
    let (program, choices) = seed_again(rt, order, inputs, campaign, seed)?;
    let ends = match campaign.expect.exit {
        Exit::Must => EndsTold::FaultsAndRunning,
        Exit::May => EndsTold::Faults,
    };
    let rule = campaign.expect.rule;
    explain_ends(
        rt,
        ProgramForm::Elf,
        &program,
        inputs,
        choices.as_bytes(),
        Explained { ends, rule },
    )
}

// Tells that a campaign without failures shows little, if no hart of the first seed has come to an
// end.
fn explain_steps<R: Files + AllocGlobal + Eprint>(
    rt: &R,
    order: &CampaignOrder,
    inputs: &[u32],
    campaign: Campaign,
) -> Option<()> {
    if campaign.count == 0 {
        return None;
    }
    let (program, choices) = seed_again(rt, order, inputs, campaign, campaign.first)?;
    let text = choices.as_bytes();
    if ends_running(rt, ProgramForm::Elf, &program, inputs, text)? {
        let (seed, steps) = (campaign.first, campaign.steps);
        let also = match campaign.hangs {
            Hangs::Unasked => ", or --hangs if harts have to stop",
            Hangs::Asked => "",
        };
        eprintln!(rt;
            "each hart of seed {seed} still runs after {steps} steps: write more by --steps{also}"
        ).ok()?;
    }
    Some(())
}
