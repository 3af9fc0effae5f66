//! How a run ended, in the detail that a report distinguishes.

ghost use Rattle.std.specs.Prelude.{◌≡◌, ◌++◌, IfOk, OnOk, map, string_bytes};
ghost use Rattle.hart_step.specs.Hart.{hart_of};
ghost use Rattle.campaign_runs.specs.Ending.{does_hang, ending_words, fault_words, faults_of, result_words};
ghost use Rattle.campaign_runs.specs.Ending.{results_from, words_of_ending};
ghost use Rattle.campaign_runs.specs.Hangs.{hang_text, words_deciding};
ghost use Rattle.campaign_runs.specs.Properties.{any_broken, property_name, property_words, verdict_by, verdict_on_each, words_of_property};

use crate::campaign::Report;
use crate::members::push_members;
use crate::words::{SeenWord, push_words_seen};
use cmd_form::Form;
use hart_step::{Hart, HartState};
use isa_names::Word;
use object_library::Verdict;
use outcome::{CauseName, Expect, Outcome};
use property_judge::{Judged, Property};
use std::alloc::{AllocError, Allocator};

// The indices of a0 and a1 among the registers.
const A0: usize = 10;

const A1: usize = 11;

/// How a run ended, in the detail that a report distinguishes.
#[derive(Drop)]
#[derive_where(Debug, PartialEq, Eq, Hash)]
pub struct Ending<A: Allocator> {
    /// Number of harts that ended in each way, and the verdict.
    pub outcome: Outcome,
    /// The verdict on the properties of one's own, if there are some: `Broken` if one is broken.
    pub properties: Option<Verdict>,
    /// Whether the run hangs, if that was decided.
    pub hangs: Option<bool>,
    /// What else a line of the report says, of the properties, of the harts, of words of memory,
    /// and whether the run hangs: as text each word behind a space, as JSON each member behind a
    /// comma.
    pub words: String<A>,
}

impl<A: Allocator> Ending<A> {
    ghost use Rattle.campaign_runs.specs.Ending.{ending_breaks, ending_fails, ending_faults, ending_of, ending_with};
    ghost use Rattle.campaign_runs.specs.Hangs.{ending_deciding};
    ghost use Rattle.campaign_runs.specs.Words.{ending_seeing};

    /// The ending of a run with this outcome that left these properties and harts, in the detail
    /// that a report distinguishes, for a report in this form. The only error is out of memory.
    pub fn of(
        alloc: A,
        form: Form,
        report: Report,
        outcome: Outcome,
        judged: &[Judged],
        harts: &[Hart],
    ) -> Result<Ending<A>, AllocError>
        ensures { IfOk result (λ ending.
            ending_of ending ≡ ending_with form report outcome judged.now (map hart_of harts.now)) }
    {
        let mut words = String::new(alloc);
        push_words(&mut words, form, report, judged, harts)?;
        Ok(Ending {
            outcome,
            properties: verdict_on_each(judged),
            hangs: None,
            words,
        })
    }

    /// Adds words of memory that the run left. The only error is out of memory.
    pub(crate) fn see(&mut self, form: Form, seen: &[SeenWord]) -> Result<(), AllocError>
        ensures { OnOk result (ending_of self.new
            ≡ ending_seeing form seen.now (ending_of self.old)) }
    {
        push_words_seen(&mut self.words, form, seen)?;
        Ok(())
    }

    /// Adds whether the run hangs, if that was decided. The only error is out of memory.
    pub(crate) fn decide(&mut self, form: Form, hangs: Option<bool>) -> Result<(), AllocError>
        ensures { OnOk result (ending_of self.new ≡ ending_deciding form hangs (ending_of self.old)) }
    {
        push_hang(&mut self.words, form, hangs)?;
        self.hangs = hangs;
        Ok(())
    }

    /// Whether a rule or a property is judged and broken.
    pub fn breaks(&self) -> bool
        ensures { result ≡ ending_breaks (ending_of self.now) }
    {
        self.properties == Some(Verdict::Broken) || self.outcome.breaks()
    }

    /// Whether the run has failed otherwise than by a hang: a property is broken, or its outcome is
    /// a failure.
    pub fn faults(&self, expect: Expect) -> bool
        ensures { result ≡ ending_faults expect.exit (ending_of self.now) }
    {
        self.properties == Some(Verdict::Broken) || expect.fails(self.outcome)
    }

    /// Whether the run has failed: by its end, or since it hangs.
    pub fn fails(&self, expect: Expect) -> bool
        ensures { result ≡ ending_fails expect.exit (ending_of self.now) }
    {
        self.faults(expect) || does_hang(self.hangs)
    }
}

// Whether it was decided that a run hangs.
fn does_hang(hangs: Option<bool>) -> bool
    ensures { result ≡ does_hang hangs }
{
    match hangs {
        None => false,
        Some(hangs) => hangs,
    }
}

// Whether a run hangs, as a line or an object of a report says it.
fn hang_text(form: Form, hangs: bool) -> &'static str
    ensures { result.now ≡ hang_text form hangs }
{
    match (form, hangs) {
        (Form::Text, true) => " hangs yes",
        (Form::Text, false) => " hangs no",
        (Form::Json, true) => ",\"hangs\":true",
        (Form::Json, false) => ",\"hangs\":false",
    }
}

// Appends whether a run hangs, if that was decided.
fn push_hang<A: Allocator>(
    text: &mut String<A>,
    form: Form,
    hangs: Option<bool>,
) -> Result<(), AllocError>
    ensures { OnOk result (string_bytes text.new ≡ words_deciding form hangs (string_bytes text.old)) }
{
    match hangs {
        None => Ok(()),
        Some(hangs) => text.push_str(hang_text(form, hangs)),
    }
}

// Appends what a report in this form says of properties and harts.
fn push_words<A: Allocator>(
    text: &mut String<A>,
    form: Form,
    report: Report,
    judged: &[Judged],
    harts: &[Hart],
) -> Result<(), AllocError>
    ensures { IfOk result (λ _. string_bytes text.new
        ≡ string_bytes text.old ++ words_of_ending form report judged.now (map hart_of harts.now)) }
{
    match form {
        Form::Text => {
            push_properties(text, judged)?;
            push_harts(text, report, harts)?;
        }
        Form::Json => push_members(text, report, judged, harts)?,
    }
    Ok(())
}

/// Whether a property was kept.
pub(crate) fn verdict_by(broken: Option<usize>) -> Verdict
    ensures { result ≡ verdict_by broken }
{
    match broken {
        None => Verdict::Kept,
        Some(_) => Verdict::Broken,
    }
}

// Whether one of these properties is broken.
fn any_broken(judged: &[Judged]) -> bool
    ensures { result ≡ any_broken judged.now }
{
    judged.iter().any(|each| each.broken.is_some())
}

// The verdict on properties, if there are some.
fn verdict_on_each(judged: &[Judged]) -> Option<Verdict>
    ensures { result ≡ verdict_on_each judged.now }
{
    if judged.is_empty() {
        return None;
    }
    if any_broken(judged) {
        Some(Verdict::Broken)
    } else {
        Some(Verdict::Kept)
    }
}

// What the words of a property begin with.
fn property_name(property: Property) -> &'static str
    ensures { result.now ≡ property_name property }
{
    match property {
        Property::Always { .. } => " always ",
        Property::NeverBoth { .. } => " never-both ",
    }
}

// Appends what a line says of a property.
fn push_property<A: Allocator>(text: &mut String<A>, judged: Judged) -> Result<(), AllocError>
    ensures { IfOk result (λ _. string_bytes text.new
        ≡ string_bytes text.old ++ words_of_property judged) }
{
    let verdict = verdict_by(judged.broken);
    text.push_str(property_name(judged.property))?;
    write!(text, "{verdict}")?;
    Ok(())
}

// Appends what a line says of properties.
fn push_properties<A: Allocator>(text: &mut String<A>, judged: &[Judged]) -> Result<(), AllocError>
    ensures { IfOk result (λ _. string_bytes text.new
        ≡ string_bytes text.old ++ property_words judged.now) }
{
    'judged: for each in judged {
        push_property(text, *each)?;
    }
    Ok(())
}

// Appends what a line of a report says of harts.
fn push_harts<A: Allocator>(
    text: &mut String<A>,
    report: Report,
    harts: &[Hart],
) -> Result<(), AllocError>
    ensures { IfOk result (λ _. string_bytes text.new
        ≡ string_bytes text.old ++ ending_words report (map hart_of harts.now)) }
{
    match report {
        Report::Lines | Report::Failures | Report::Summary => {}
        Report::Outcomes => push_results(text, harts)?,
        Report::Causes => push_faults(text, harts)?,
    }
    Ok(())
}

// Appends a0 and a1 of a hart that has exited.
fn push_result<A: Allocator>(
    text: &mut String<A>,
    number: usize,
    hart: &Hart,
) -> Result<(), AllocError>
    ensures { IfOk result (λ _. string_bytes text.new
        ≡ string_bytes text.old ++ result_words number (hart_of hart.now).state (hart_of hart.now)) }
{
    let a0 = Word(hart.registers[A0]);
    let a1 = Word(hart.registers[A1]);
    match hart.state {
        HartState::Exited(_) => write!(text, " {number}:a0={a0} {number}:a1={a1}")?,
        HartState::Running | HartState::Faulted(_) => {}
    }
    Ok(())
}

// Appends a0 and a1 of the harts that have exited.
fn push_results<A: Allocator>(text: &mut String<A>, harts: &[Hart]) -> Result<(), AllocError>
    ensures { IfOk result (λ _. string_bytes text.new
        ≡ string_bytes text.old ++ results_from 0 (map hart_of harts.now)) }
{
    for (number, hart) in harts.iter().enumerate() {
        push_result(text, number, hart)?;
    }
    Ok(())
}

// Appends the cause and the place of a hart's fault, if it has faulted.
fn push_fault<A: Allocator>(text: &mut String<A>, hart: &Hart) -> Result<(), AllocError>
    ensures { IfOk result (λ _. string_bytes text.new
        ≡ string_bytes text.old ++ fault_words (hart_of hart.now).state (hart_of hart.now)) }
{
    let pc = Word(hart.pc);
    match hart.state {
        HartState::Faulted(cause) => {
            let name = CauseName(cause);
            write!(text, " {name} at {pc}")?;
        }
        HartState::Running | HartState::Exited(_) => {}
    }
    Ok(())
}

// Appends the causes and the places of harts' faults.
fn push_faults<A: Allocator>(text: &mut String<A>, harts: &[Hart]) -> Result<(), AllocError>
    ensures { IfOk result (λ _. string_bytes text.new
        ≡ string_bytes text.old ++ faults_of (map hart_of harts.now)) }
{
    'harts: for hart in harts {
        push_fault(text, hart)?;
    }
    Ok(())
}
