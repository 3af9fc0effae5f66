//! The lines of outcomes.

ghost use Rattle.std.specs.Prelude.{◌≡◌, ◌++◌, IfOk, string_bytes};
ghost use Rattle.cmd_form.specs.declared.form.Form.TheVariants.{Text, Json};
ghost use Rattle.campaign_runs.specs.Ending.{ending_of};
ghost use Rattle.campaign_runs.specs.Tally.{tally_rows};
ghost use Rattle.cmd_bounded.specs.Lines.{schedules_entries, schedules_entry, schedules_line, schedules_object};

use crate::lines::push_verdict;
use campaign_runs::{Ending, Form, SeedCount, Tally};
use std::alloc::{AllocError, Allocator};
use std::fmt;

// Number of schedules, the first of them, and the number of harts that ended in each way, shown as
// a line without LF.
#[derive(Clone, Copy)]
struct SchedulesLine {
    count: SeedCount,
    exited: usize,
    faulted: usize,
    running: usize,
}

impl fmt::Display for SchedulesLine {
    ghost use Rattle.std.specs.Prelude.{Some};

    ghost output = { λ l. Some (schedules_line l.count l.exited l.faulted l.running) };

    fn fmt<W: fmt::Write>(&self, f: &mut fmt::Formatter<W>) -> fmt::Result {
        let schedules = self.count.seeds;
        let first = self.count.first;
        let exited = self.exited;
        let faulted = self.faulted;
        let running = self.running;
        write!(
            f,
            "schedules {schedules} first {first} exited {exited} faulted {faulted} running {running}"
        )
    }
}

// The same, shown as an object of JSON as far as the verdict.
#[derive(Clone, Copy)]
struct SchedulesObject {
    count: SeedCount,
    exited: usize,
    faulted: usize,
    running: usize,
}

impl fmt::Display for SchedulesObject {
    ghost use Rattle.std.specs.Prelude.{Some};

    ghost output = { λ o. Some (schedules_object o.count o.exited o.faulted o.running) };

    fn fmt<W: fmt::Write>(&self, f: &mut fmt::Formatter<W>) -> fmt::Result {
        let schedules = self.count.seeds;
        let first = self.count.first;
        let exited = self.exited;
        let faulted = self.faulted;
        let running = self.running;
        f.write_str("{\"schedules\":")?;
        write!(
            f,
            "{schedules},\"first\":{first},\"exited\":{exited},\"faulted\":{faulted},\"running\":{running}"
        )
    }
}

// Appends the object of an outcome, on a line of its own.
fn push_object<A: Allocator>(
    text: &mut String<A>,
    ending: &Ending<A>,
    count: SeedCount,
) -> Result<(), AllocError>
    ensures { IfOk result (λ _. string_bytes text.new ≡ string_bytes text.old
        ++ schedules_entry Json (record { ending = ending_of ending.now; count = count })) }
{
    let outcome = ending.outcome;
    let object = SchedulesObject {
        count,
        exited: outcome.exited,
        faulted: outcome.faulted,
        running: outcome.running,
    };
    write!(text, "{object}")?;
    push_verdict(text, outcome.verdict)?;
    let members = ending.words.as_str();
    text.push_str(members)?;
    text.push_str("}\n")?;
    Ok(())
}

// Appends the line of an outcome for a person.
fn push_line<A: Allocator>(
    text: &mut String<A>,
    ending: &Ending<A>,
    count: SeedCount,
) -> Result<(), AllocError>
    ensures { IfOk result (λ _. string_bytes text.new ≡ string_bytes text.old
        ++ schedules_entry Text (record { ending = ending_of ending.now; count = count })) }
{
    let outcome = ending.outcome;
    let line = SchedulesLine {
        count,
        exited: outcome.exited,
        faulted: outcome.faulted,
        running: outcome.running,
    };
    match outcome.verdict {
        None => write!(text, "{line}")?,
        Some(verdict) => write!(text, "{line} {verdict}")?,
    }
    text.push_str(ending.words.as_str())?;
    text.push('\n')?;
    Ok(())
}

// Appends the line of an outcome in this form.
fn push_row<A: Allocator>(
    text: &mut String<A>,
    form: Form,
    ending: &Ending<A>,
    count: SeedCount,
) -> Result<(), AllocError>
    ensures { IfOk result (λ _. string_bytes text.new ≡ string_bytes text.old
        ++ schedules_entry form (record { ending = ending_of ending.now; count = count })) }
{
    match form {
        Form::Text => push_line(text, ending, count)?,
        Form::Json => push_object(text, ending, count)?,
    }
    Ok(())
}

/// Appends the lines of a tally in this form. The only error is out of memory.
pub(crate) fn push_rows<A: Allocator + Copy>(
    text: &mut String<A>,
    form: Form,
    tally: &Tally<A>,
) -> Result<(), AllocError>
    ensures { IfOk result (λ _. string_bytes text.new
        ≡ string_bytes text.old ++ schedules_entries form (tally_rows tally.now)) }
{
    'rows: for place in 0..tally.len() {
        let (ending, count) = tally.row(place);
        push_row(text, form, ending, count)?;
    }
    Ok(())
}
