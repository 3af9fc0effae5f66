//! The lines of schedules' runs.

ghost use Rattle.std.specs.Prelude.{◌≡◌, ◌++◌, IfOk, string_bytes};
ghost use Rattle.cmd_form.specs.declared.form.Form.TheVariants.{Text, Json};
ghost use Rattle.campaign_runs.specs.Runs.{seed_ending};
ghost use Rattle.cmd_campaign.specs.Lines.{verdict_member};
ghost use Rattle.cmd_bounded.specs.Lines.{numbered_entry, schedule_line, schedule_object, schedule_part};

use campaign_runs::{Form, Report, SeedEnd};
use object_library::Verdict;
use outcome::Expect;
use std::alloc::{AllocError, Allocator};
use std::fmt;

// The number of harts of a schedule's run that ended in each way, shown as a line without LF.
#[derive(Clone, Copy)]
struct ScheduleLine {
    number: u64,
    exited: usize,
    faulted: usize,
    running: usize,
}

impl fmt::Display for ScheduleLine {
    ghost use Rattle.std.specs.Prelude.{Some};

    ghost output = { λ l. Some (schedule_line l.number l.exited l.faulted l.running) };

    fn fmt<W: fmt::Write>(&self, f: &mut fmt::Formatter<W>) -> fmt::Result {
        let number = self.number;
        let exited = self.exited;
        let faulted = self.faulted;
        let running = self.running;
        write!(
            f,
            "schedule {number} exited {exited} faulted {faulted} running {running}"
        )
    }
}

// The same, shown as an object of JSON as far as the verdict.
#[derive(Clone, Copy)]
struct ScheduleObject {
    number: u64,
    exited: usize,
    faulted: usize,
    running: usize,
}

impl fmt::Display for ScheduleObject {
    ghost use Rattle.std.specs.Prelude.{Some};

    ghost output = { λ o. Some (schedule_object o.number o.exited o.faulted o.running) };

    fn fmt<W: fmt::Write>(&self, f: &mut fmt::Formatter<W>) -> fmt::Result {
        let number = self.number;
        let exited = self.exited;
        let faulted = self.faulted;
        let running = self.running;
        f.write_str("{\"schedule\":")?;
        write!(
            f,
            "{number},\"exited\":{exited},\"faulted\":{faulted},\"running\":{running}"
        )
    }
}

/// Appends a verdict as a member of JSON behind a comma. The only error is out of memory.
pub(crate) fn push_verdict<A: Allocator>(
    text: &mut String<A>,
    verdict: Option<Verdict>,
) -> Result<(), AllocError>
    ensures { IfOk result (λ _. string_bytes text.new
        ≡ string_bytes text.old ++ verdict_member verdict) }
{
    match verdict {
        None => text.push_str(",\"verdict\":null")?,
        Some(verdict) => write!(text, ",\"verdict\":\"{verdict}\"")?,
    }
    Ok(())
}

// Appends the object of a run, on a line of its own.
fn push_object<A: Allocator>(text: &mut String<A>, end: &SeedEnd<A>) -> Result<(), AllocError>
    ensures { IfOk result (λ _. string_bytes text.new
        ≡ string_bytes text.old ++ numbered_entry Json (seed_ending end.now)) }
{
    let outcome = end.ending.outcome;
    let object = ScheduleObject {
        number: end.seed,
        exited: outcome.exited,
        faulted: outcome.faulted,
        running: outcome.running,
    };
    write!(text, "{object}")?;
    push_verdict(text, outcome.verdict)?;
    let members = end.ending.words.as_str();
    text.push_str(members)?;
    text.push_str("}\n")?;
    Ok(())
}

// Appends the line of a run for a person.
fn push_line<A: Allocator>(text: &mut String<A>, end: &SeedEnd<A>) -> Result<(), AllocError>
    ensures { IfOk result (λ _. string_bytes text.new
        ≡ string_bytes text.old ++ numbered_entry Text (seed_ending end.now)) }
{
    let outcome = end.ending.outcome;
    let line = ScheduleLine {
        number: end.seed,
        exited: outcome.exited,
        faulted: outcome.faulted,
        running: outcome.running,
    };
    match outcome.verdict {
        None => write!(text, "{line}")?,
        Some(verdict) => write!(text, "{line} {verdict}")?,
    }
    text.push_str(end.ending.words.as_str())?;
    text.push('\n')?;
    Ok(())
}

/// Appends the line of a run in this form. The only error is out of memory.
pub(crate) fn push_schedule<A: Allocator>(
    text: &mut String<A>,
    form: Form,
    end: &SeedEnd<A>,
) -> Result<(), AllocError>
    ensures { IfOk result (λ _. string_bytes text.new
        ≡ string_bytes text.old ++ numbered_entry form (seed_ending end.now)) }
{
    match form {
        Form::Text => push_line(text, end)?,
        Form::Json => push_object(text, end)?,
    }
    Ok(())
}

/// Appends what a report has of a run beside the lines of outcomes. The only error is out of
/// memory.
pub(crate) fn push_part<A: Allocator>(
    text: &mut String<A>,
    form: Form,
    report: Report,
    expect: Expect,
    end: &SeedEnd<A>,
) -> Result<(), AllocError>
    ensures { IfOk result (λ _. string_bytes text.new
        ≡ string_bytes text.old ++ schedule_part form report expect.exit (seed_ending end.now)) }
{
    match report {
        Report::Lines => push_schedule(text, form, end)?,
        Report::Failures => {
            if end.ending.fails(expect) {
                push_schedule(text, form, end)?;
            }
        }
        Report::Summary | Report::Outcomes | Report::Causes => {}
    }
    Ok(())
}
