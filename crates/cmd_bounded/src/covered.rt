//! The line that says what is covered.

ghost use Rattle.std.specs.Prelude.{◌≡◌, ◌++◌, IfOk, string_bytes};
ghost use Rattle.cmd_form.specs.declared.form.Form.TheVariants.{Text, Json};
ghost use Rattle.campaign_bounded.specs.Walk.{schedules_left};
ghost use Rattle.cmd_bounded.specs.Lines.{covered_entry, covered_line, covered_object, covered_words, left_member, left_words, nothing_left};

use crate::bounded::BoundedCampaign;
use campaign_bounded::Schedules;
use campaign_runs::Form;
use mem_store::FromImage;
use std::alloc::{AllocError, Allocator};
use std::fmt;

// What is covered, shown as a line without its end.
#[derive(Clone, Copy)]
struct Covered {
    count: u64,
    first: u64,
    preemptions: u32,
    steps: u64,
}

impl fmt::Display for Covered {
    ghost use Rattle.std.specs.Prelude.{Some};

    ghost output = { λ c. Some (covered_words c.count c.first c.preemptions c.steps) };

    fn fmt<W: fmt::Write>(&self, f: &mut fmt::Formatter<W>) -> fmt::Result {
        let count = self.count;
        let first = self.first;
        let preemptions = self.preemptions;
        let steps = self.steps;
        write!(
            f,
            "covered {count} schedules from {first} on, with at most {preemptions} preemptions and {steps} choices"
        )
    }
}

// The same, shown as an object of JSON as far as whether schedules are left.
#[derive(Clone, Copy)]
struct CoveredObject {
    count: u64,
    first: u64,
    preemptions: u32,
    steps: u64,
}

impl fmt::Display for CoveredObject {
    ghost use Rattle.std.specs.Prelude.{Some};

    ghost output = { λ c. Some (covered_object c.count c.first c.preemptions c.steps) };

    fn fmt<W: fmt::Write>(&self, f: &mut fmt::Formatter<W>) -> fmt::Result {
        let count = self.count;
        let first = self.first;
        let preemptions = self.preemptions;
        let steps = self.steps;
        f.write_str("{\"covered\":")?;
        write!(
            f,
            "{count},\"first\":{first},\"preemptions\":{preemptions},\"choices\":{steps}"
        )
    }
}

// Appends the line for a person, given whether no schedule is left.
fn push_line<A: Allocator>(
    text: &mut String<A>,
    campaign: BoundedCampaign,
    count: u64,
    none: bool,
) -> Result<(), AllocError>
    ensures { IfOk result (λ _. string_bytes text.new ≡ string_bytes text.old
        ++ covered_entry Text campaign count none) }
{
    let covered = Covered {
        count,
        first: campaign.first,
        preemptions: campaign.preemptions,
        steps: campaign.steps,
    };
    write!(text, "{covered}; ")?;
    text.push_str(left_words(none))?;
    text.push('\n')?;
    Ok(())
}

// Appends the object, on a line of its own.
fn push_object<A: Allocator>(
    text: &mut String<A>,
    campaign: BoundedCampaign,
    count: u64,
    none: bool,
) -> Result<(), AllocError>
    ensures { IfOk result (λ _. string_bytes text.new ≡ string_bytes text.old
        ++ covered_entry Json campaign count none) }
{
    let covered = CoveredObject {
        count,
        first: campaign.first,
        preemptions: campaign.preemptions,
        steps: campaign.steps,
    };
    write!(text, "{covered}")?;
    text.push_str(left_member(none))?;
    text.push_str("}\n")?;
    Ok(())
}

// Appends the line in the campaign's form.
fn push_entry<A: Allocator>(
    text: &mut String<A>,
    campaign: BoundedCampaign,
    count: u64,
    none: bool,
) -> Result<(), AllocError>
    ensures { IfOk result (λ _. string_bytes text.new ≡ string_bytes text.old
        ++ covered_entry campaign.form campaign count none) }
{
    match campaign.form {
        Form::Text => push_line(text, campaign, count, none)?,
        Form::Json => push_object(text, campaign, count, none)?,
    }
    Ok(())
}

// Whether schedules are left, in words.
fn left_words(none: bool) -> &'static str
    ensures { result.now ≡ left_words none }
{
    if none {
        "none is left"
    } else {
        "more are left"
    }
}

// Whether schedules are left, as a member of JSON behind a comma.
fn left_member(none: bool) -> &'static str
    ensures { result.now ≡ left_member none }
{
    if none {
        ",\"more_left\":false"
    } else {
        ",\"more_left\":true"
    }
}

// Whether no schedule is left, which takes one from the walk.
fn nothing_left<S: FromImage<A>, A: Allocator + Copy>(
    alloc: A,
    walk: &mut Schedules<S, A>,
) -> Result<bool, AllocError>
    ensures { IfOk result (λ none. none ≡ nothing_left (schedules_left S.memory walk.old)) }
{
    match walk.next(alloc)? {
        None => Ok(true),
        Some(_) => Ok(false),
    }
}

/// Appends how many schedules are covered within which bounds, and whether others are left, which
/// takes one more from the walk. The only error is out of memory.
pub(crate) fn push_covered<S: FromImage<A>, A: Allocator + Copy>(
    alloc: A,
    text: &mut String<A>,
    walk: &mut Schedules<S, A>,
    campaign: BoundedCampaign,
    count: u64,
) -> Result<(), AllocError>
    ensures { IfOk result (λ _. string_bytes text.new
        ≡ string_bytes text.old ++ covered_line campaign count (schedules_left S.memory walk.old)) }
{
    let none = nothing_left(alloc, walk)?;
    push_entry(text, campaign, count, none)
}
