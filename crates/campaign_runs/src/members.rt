//! What an object of JSON says of a run beside how many harts ended in which way.

ghost use Rattle.std.specs.Prelude.{◌≡◌, ◌++◌, ℕ, IfOk, List, codes, map, string_bytes};
ghost use Rattle.hart_step.specs.Hart.{hart_of};
ghost use Rattle.campaign_runs.specs.Elements.{comma_after, elements_after};
ghost use Rattle.campaign_runs.specs.Members.{elements_text, later_elements};
ghost use Rattle.campaign_runs.specs.Members.{ending_members, harts_member};
ghost use Rattle.campaign_runs.specs.Members.{fault_objects, faults_member, faults_objects};
ghost use Rattle.campaign_runs.specs.Members.{properties_member, property_kind, property_object};
ghost use Rattle.campaign_runs.specs.Members.{result_objects, results_member, results_objects};

use crate::campaign::Report;
use crate::ending::verdict_by;
use hart_step::{Hart, HartState};
use outcome::CauseName;
use property_judge::{Judged, Property};
use std::alloc::{AllocError, Allocator};

// The indices of a0 and a1 among the registers.
const A0: usize = 10;

const A1: usize = 11;

// What stands before an element of an array.
#[derive(Clone, Copy)]
enum Before {
    // The bracket.
    Bracket,
    // Another element.
    Element,
}

// Appends the comma between two elements.
fn push_comma<A: Allocator>(text: &mut String<A>, before: Before) -> Result<(), AllocError>
    ensures { IfOk result (λ _. string_bytes text.new
        ≡ string_bytes text.old ++ comma_after before) }
{
    match before {
        Before::Bracket => {}
        Before::Element => text.push(',')?,
    }
    Ok(())
}

// The kind of a property.
fn property_kind(property: Property) -> &'static str
    ensures { result.now ≡ property_kind property }
{
    match property {
        Property::Always { .. } => "always",
        Property::NeverBoth { .. } => "never-both",
    }
}

// Appends a property.
fn push_property<A: Allocator>(text: &mut String<A>, judged: Judged) -> Result<(), AllocError>
    ensures { IfOk result (λ _. string_bytes text.new
        ≡ string_bytes text.old ++ property_object judged) }
{
    let kind = property_kind(judged.property);
    let verdict = verdict_by(judged.broken);
    text.push_str("{\"kind\":\"")?;
    text.push_str(kind)?;
    write!(text, "\",\"verdict\":\"{verdict}")?;
    text.push_str("\"}")?;
    Ok(())
}

// Appends properties behind a first, each behind a comma.
fn push_later<A: Allocator>(text: &mut String<A>, judged: &[Judged]) -> Result<(), AllocError>
    ensures { IfOk result (λ _. string_bytes text.new
        ≡ string_bytes text.old ++ later_elements (map property_object judged.now)) }
{
    'judged: for each in judged {
        text.push(',')?;
        push_property(text, *each)?;
    }
    Ok(())
}

// Appends what an object says of properties.
fn push_properties<A: Allocator>(text: &mut String<A>, judged: &[Judged]) -> Result<(), AllocError>
    ensures { IfOk result (λ _. string_bytes text.new
        ≡ string_bytes text.old ++ properties_member judged.now) }
{
    let [first, rest @ ..] = judged else {
        return Ok(());
    };
    text.push_str(",\"properties\":[")?;
    push_property(text, *first)?;
    push_later(text, rest)?;
    text.push(']')?;
    Ok(())
}

// Appends a0 and a1 of a hart that has exited. Returns what stands before the next element.
fn push_result<A: Allocator>(
    text: &mut String<A>,
    before: Before,
    number: usize,
    hart: &Hart,
) -> Result<Before, AllocError>
    ensures { IfOk result (λ next. (rest : List (List ℕ))
        → string_bytes text.new ++ elements_after next rest ≡ string_bytes text.old
        ++ elements_after before (result_objects number (hart_of hart.now).state (hart_of hart.now) ++ rest)) }
{
    let a0 = hart.registers[A0];
    let a1 = hart.registers[A1];
    match hart.state {
        HartState::Exited(_) => {
            push_comma(text, before)?;
            text.push_str("{\"hart\":")?;
            write!(text, "{number},\"a0\":{a0},\"a1\":{a1}")?;
            text.push('}')?;
            Ok(Before::Element)
        }
        HartState::Running | HartState::Faulted(_) => Ok(before),
    }
}

// Appends a0 and a1 of the harts that have exited, and the closing bracket.
fn push_result_elements<A: Allocator>(
    text: &mut String<A>,
    harts: &[Hart],
) -> Result<(), AllocError>
    ensures { IfOk result (λ _. string_bytes text.new ≡ string_bytes text.old
        ++ (elements_text (results_objects 0 (map hart_of harts.now)) ++ codes "]")) }
{
    let mut before = Before::Bracket;
    for (number, hart) in harts.iter().enumerate() {
        before = push_result(text, before, number, hart)?;
    }
    text.push(']')?;
    Ok(())
}

// Appends the cause and the place of a hart's fault, if it has faulted. Returns what stands before
// the next element.
fn push_fault<A: Allocator>(
    text: &mut String<A>,
    before: Before,
    hart: &Hart,
) -> Result<Before, AllocError>
    ensures { IfOk result (λ next. (rest : List (List ℕ))
        → string_bytes text.new ++ elements_after next rest ≡ string_bytes text.old
        ++ elements_after before (fault_objects (hart_of hart.now).state (hart_of hart.now) ++ rest)) }
{
    let pc = hart.pc;
    match hart.state {
        HartState::Faulted(cause) => {
            let name = CauseName(cause);
            push_comma(text, before)?;
            text.push_str("{\"cause\":\"")?;
            write!(text, "{name}\",\"pc\":{pc}")?;
            text.push('}')?;
            Ok(Before::Element)
        }
        HartState::Running | HartState::Exited(_) => Ok(before),
    }
}

// Appends the causes and the places of harts' faults, and the closing bracket.
fn push_fault_elements<A: Allocator>(text: &mut String<A>, harts: &[Hart]) -> Result<(), AllocError>
    ensures { IfOk result (λ _. string_bytes text.new ≡ string_bytes text.old
        ++ (elements_text (faults_objects (map hart_of harts.now)) ++ codes "]")) }
{
    let mut before = Before::Bracket;
    'harts: for hart in harts {
        before = push_fault(text, before, hart)?;
    }
    text.push(']')?;
    Ok(())
}

// Appends the results of the harts that have exited.
fn push_results<A: Allocator>(text: &mut String<A>, harts: &[Hart]) -> Result<(), AllocError>
    ensures { IfOk result (λ _. string_bytes text.new
        ≡ string_bytes text.old ++ results_member (map hart_of harts.now)) }
{
    text.push_str(",\"results\":[")?;
    push_result_elements(text, harts)?;
    Ok(())
}

// Appends harts' faults.
fn push_faults<A: Allocator>(text: &mut String<A>, harts: &[Hart]) -> Result<(), AllocError>
    ensures { IfOk result (λ _. string_bytes text.new
        ≡ string_bytes text.old ++ faults_member (map hart_of harts.now)) }
{
    text.push_str(",\"faults\":[")?;
    push_fault_elements(text, harts)?;
    Ok(())
}

// Appends what an object of a report says of harts.
fn push_harts<A: Allocator>(
    text: &mut String<A>,
    report: Report,
    harts: &[Hart],
) -> Result<(), AllocError>
    ensures { IfOk result (λ _. string_bytes text.new
        ≡ string_bytes text.old ++ harts_member report (map hart_of harts.now)) }
{
    match report {
        Report::Lines | Report::Failures | Report::Summary => {}
        Report::Outcomes => push_results(text, harts)?,
        Report::Causes => push_faults(text, harts)?,
    }
    Ok(())
}

/// Appends what an object of a report says of a run, each member behind a comma. The only error is
/// out of memory.
pub(crate) fn push_members<A: Allocator>(
    text: &mut String<A>,
    report: Report,
    judged: &[Judged],
    harts: &[Hart],
) -> Result<(), AllocError>
    ensures { IfOk result (λ _. string_bytes text.new
        ≡ string_bytes text.old ++ ending_members report judged.now (map hart_of harts.now)) }
{
    push_properties(text, judged)?;
    push_harts(text, report, harts)?;
    Ok(())
}
