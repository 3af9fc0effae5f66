//! The lines of runs.

ghost use Rattle.std.specs.Prelude.{◌≡◌, ◌++◌, IfOk, map, string_bytes};
ghost use Rattle.cmd_form.specs.declared.form.Form.TheVariants.{Text, Json};
ghost use Rattle.campaign_runs.specs.Runs.{seed_ending};
ghost use Rattle.cmd_campaign.specs.Lines.{count_members, end_entry, report_entries};
ghost use Rattle.cmd_campaign.specs.Lines.{report_entry, seed_line, seed_object, verdict_member};

use campaign_runs::{Form, Report, SeedEnd};
use object_library::Verdict;
use outcome::Expect;
use std::alloc::{AllocError, Allocator};
use std::fmt;

// The number of harts of a seed's run that ended in each way, shown as a line without LF.
#[derive(Clone, Copy)]
struct SeedLine {
    seed: u64,
    exited: usize,
    faulted: usize,
    running: usize,
}

impl fmt::Display for SeedLine {
    ghost use Rattle.std.specs.Prelude.{Some};

    ghost output = { λ l. Some (seed_line l.seed l.exited l.faulted l.running) };

    fn fmt<W: fmt::Write>(&self, f: &mut fmt::Formatter<W>) -> fmt::Result {
        let seed = self.seed;
        let exited = self.exited;
        let faulted = self.faulted;
        let running = self.running;
        write!(
            f,
            "seed {seed} exited {exited} faulted {faulted} running {running}"
        )
    }
}

/// The number of harts that ended in each way, shown as members of JSON.
#[derive(Clone, Copy)]
pub(crate) struct CountMembers {
    pub(crate) exited: usize,
    pub(crate) faulted: usize,
    pub(crate) running: usize,
}

impl fmt::Display for CountMembers {
    ghost use Rattle.std.specs.Prelude.{Some};

    ghost output = { λ c. Some (count_members c.exited c.faulted c.running) };

    fn fmt<W: fmt::Write>(&self, f: &mut fmt::Formatter<W>) -> fmt::Result {
        let exited = self.exited;
        let faulted = self.faulted;
        let running = self.running;
        write!(
            f,
            "\"exited\":{exited},\"faulted\":{faulted},\"running\":{running}"
        )
    }
}

// A seed and the same, shown as an object of JSON as far as the verdict.
#[derive(Clone, Copy)]
struct SeedObject {
    seed: u64,
    counts: CountMembers,
}

impl fmt::Display for SeedObject {
    ghost use Rattle.std.specs.Prelude.{Some};

    ghost output = { λ o. Some (seed_object o.seed o.counts.exited o.counts.faulted o.counts.running) };

    fn fmt<W: fmt::Write>(&self, f: &mut fmt::Formatter<W>) -> fmt::Result {
        let seed = self.seed;
        let counts = self.counts;
        f.write_str("{\"seed\":")?;
        write!(f, "{seed},{counts}")
    }
}

/// Appends a verdict as a member of JSON behind a comma. The only error is out of memory.
pub(crate) fn push_verdict<A: Allocator>(
    text: &mut String<A>,
    verdict: Option<Verdict>,
) -> Result<(), AllocError>
    ensures { IfOk result (λ _. string_bytes text.new
        ≡ string_bytes text.old ++ verdict_member verdict) }
{
    match verdict {
        None => text.push_str(",\"verdict\":null")?,
        Some(verdict) => write!(text, ",\"verdict\":\"{verdict}\"")?,
    }
    Ok(())
}

// Appends the object of a run, on a line of its own.
fn push_object<A: Allocator>(text: &mut String<A>, end: &SeedEnd<A>) -> Result<(), AllocError>
    ensures { IfOk result (λ _. string_bytes text.new
        ≡ string_bytes text.old ++ end_entry Json (seed_ending end.now)) }
{
    let outcome = end.ending.outcome;
    let object = SeedObject {
        seed: end.seed,
        counts: CountMembers {
            exited: outcome.exited,
            faulted: outcome.faulted,
            running: outcome.running,
        },
    };
    write!(text, "{object}")?;
    push_verdict(text, outcome.verdict)?;
    let members = end.ending.words.as_str();
    text.push_str(members)?;
    text.push_str("}\n")?;
    Ok(())
}

/// Appends the line of a run in this form. The only error is out of memory.
pub(crate) fn push_end<A: Allocator>(
    text: &mut String<A>,
    form: Form,
    end: &SeedEnd<A>,
) -> Result<(), AllocError>
    ensures { IfOk result (λ _.
        string_bytes text.new ≡ string_bytes text.old ++ end_entry form (seed_ending end.now)) }
{
    match form {
        Form::Text => push_line(text, end)?,
        Form::Json => push_object(text, end)?,
    }
    Ok(())
}

// Appends the line of a run for a person.
fn push_line<A: Allocator>(text: &mut String<A>, end: &SeedEnd<A>) -> Result<(), AllocError>
    ensures { IfOk result (λ _. string_bytes text.new
        ≡ string_bytes text.old ++ end_entry Text (seed_ending end.now)) }
{
    let outcome = end.ending.outcome;
    let line = SeedLine {
        seed: end.seed,
        exited: outcome.exited,
        faulted: outcome.faulted,
        running: outcome.running,
    };
    match outcome.verdict {
        None => write!(text, "{line}")?,
        Some(verdict) => write!(text, "{line} {verdict}")?,
    }
    text.push_str(end.ending.words.as_str())?;
    text.push('\n')?;
    Ok(())
}

// Appends what a report has of a run while the runs go on.
fn push_entry<A: Allocator>(
    text: &mut String<A>,
    form: Form,
    report: Report,
    expect: Expect,
    end: &SeedEnd<A>,
) -> Result<(), AllocError>
    ensures { IfOk result (λ _. string_bytes text.new
        ≡ string_bytes text.old ++ report_entry form report expect.exit (seed_ending end.now)) }
{
    match report {
        Report::Lines => push_end(text, form, end)?,
        Report::Failures => {
            if end.ending.fails(expect) {
                push_end(text, form, end)?;
            }
        }
        Report::Summary | Report::Outcomes | Report::Causes => {}
    }
    Ok(())
}

/// Appends what a report in this form has of runs while they go on, in order. The only error is out
/// of memory.
pub fn push_lines<A: Allocator>(
    text: &mut String<A>,
    form: Form,
    report: Report,
    expect: Expect,
    ends: &[SeedEnd<A>],
) -> Result<(), AllocError>
    ensures { IfOk result (λ _. string_bytes text.new
        ≡ string_bytes text.old ++ report_entries form report expect.exit (map seed_ending ends.now)) }
{
    'ends: for end in ends {
        push_entry(text, form, report, expect, end)?;
    }
    Ok(())
}
