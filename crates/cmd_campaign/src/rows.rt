//! The lines of a summary.

ghost use Rattle.std.specs.Prelude.{◌≡◌, ◌++◌, IfOk, string_bytes};
ghost use Rattle.cmd_form.specs.declared.form.Form.TheVariants.{Text, Json};
ghost use Rattle.campaign_runs.specs.Ending.{ending_of};
ghost use Rattle.campaign_runs.specs.Tally.{tally_rows};
ghost use Rattle.cmd_campaign.specs.Summary.{row_entry, row_line, row_object, rows_text};

use crate::lines::{CountMembers, push_verdict};
use campaign_runs::{Ending, Form, SeedCount, Tally};
use std::alloc::{AllocError, Allocator};
use std::fmt;

// Number of seeds, the first of them, and the number of harts that ended in each way, shown as a
// line without LF.
#[derive(Clone, Copy)]
struct RowLine {
    count: SeedCount,
    exited: usize,
    faulted: usize,
    running: usize,
}

impl fmt::Display for RowLine {
    ghost use Rattle.std.specs.Prelude.{Some};

    ghost output = { λ l. Some (row_line l.count l.exited l.faulted l.running) };

    fn fmt<W: fmt::Write>(&self, f: &mut fmt::Formatter<W>) -> fmt::Result {
        let seeds = self.count.seeds;
        let first = self.count.first;
        let exited = self.exited;
        let faulted = self.faulted;
        let running = self.running;
        write!(
            f,
            "seeds {seeds} first {first} exited {exited} faulted {faulted} running {running}"
        )
    }
}

// The same, shown as an object of JSON as far as the verdict.
#[derive(Clone, Copy)]
struct RowObject {
    count: SeedCount,
    counts: CountMembers,
}

impl fmt::Display for RowObject {
    ghost use Rattle.std.specs.Prelude.{Some};

    ghost output = { λ o. Some (row_object o.count o.counts.exited o.counts.faulted o.counts.running) };

    fn fmt<W: fmt::Write>(&self, f: &mut fmt::Formatter<W>) -> fmt::Result {
        let seeds = self.count.seeds;
        let first = self.count.first;
        let counts = self.counts;
        f.write_str("{\"seeds\":")?;
        write!(f, "{seeds},\"first\":{first},{counts}")
    }
}

// Appends the object of an outcome, on a line of its own.
fn push_object<A: Allocator>(
    text: &mut String<A>,
    ending: &Ending<A>,
    count: SeedCount,
) -> Result<(), AllocError>
    ensures { IfOk result (λ _. string_bytes text.new ≡ string_bytes text.old
        ++ row_entry Json (record { ending = ending_of ending.now; count = count })) }
{
    let outcome = ending.outcome;
    let object = RowObject {
        count,
        counts: CountMembers {
            exited: outcome.exited,
            faulted: outcome.faulted,
            running: outcome.running,
        },
    };
    write!(text, "{object}")?;
    push_verdict(text, outcome.verdict)?;
    let members = ending.words.as_str();
    text.push_str(members)?;
    text.push_str("}\n")?;
    Ok(())
}

// Appends the line of an outcome in this form.
fn push_row<A: Allocator>(
    text: &mut String<A>,
    form: Form,
    ending: &Ending<A>,
    count: SeedCount,
) -> Result<(), AllocError>
    ensures { IfOk result (λ _. string_bytes text.new ≡ string_bytes text.old
        ++ row_entry form (record { ending = ending_of ending.now; count = count })) }
{
    match form {
        Form::Text => push_line(text, ending, count)?,
        Form::Json => push_object(text, ending, count)?,
    }
    Ok(())
}

// Appends the line of an outcome for a person.
fn push_line<A: Allocator>(
    text: &mut String<A>,
    ending: &Ending<A>,
    count: SeedCount,
) -> Result<(), AllocError>
    ensures { IfOk result (λ _. string_bytes text.new ≡ string_bytes text.old
        ++ row_entry Text (record { ending = ending_of ending.now; count = count })) }
{
    let outcome = ending.outcome;
    let line = RowLine {
        count,
        exited: outcome.exited,
        faulted: outcome.faulted,
        running: outcome.running,
    };
    match outcome.verdict {
        None => write!(text, "{line}")?,
        Some(verdict) => write!(text, "{line} {verdict}")?,
    }
    text.push_str(ending.words.as_str())?;
    text.push('\n')?;
    Ok(())
}

/// The lines of a tally in this form. The only error is out of memory.
pub fn summary_text<A: Allocator + Copy>(
    alloc: A,
    form: Form,
    tally: &Tally<A>,
) -> Result<String<A>, AllocError>
    ensures { IfOk result (λ text. string_bytes text ≡ rows_text form (tally_rows tally.now)) }
{
    let mut text = String::new(alloc);
    'rows: for place in 0..tally.len() {
        let (ending, count) = tally.row(place);
        push_row(&mut text, form, ending, count)?;
    }
    Ok(text)
}
