//! Parses the plan of a trace.

ghost use Rattle.std.specs.Prelude.{◌≡◌};
ghost use Rattle.cli_runs.specs.TracePlans.{choice_number_of, end_choice_of, first_choice_of, form_of, trace_plan_of};

use cli_args::read_number;
use cmd_trace::{TraceForm, TracePlan};

// The number of a choice: 0 to 2^64 - 1.
fn choice_number_of(text: &str) -> Option<u64>
    ensures { result ≡ choice_number_of text.now }
{
    match read_number(text, u64::MAX) {
        Ok(number) => Some(number),
        Err(_) => None,
    }
}

// The first traced choice.
fn first_choice_of(from: Option<&str>) -> Option<u64>
    ensures { result ≡ first_choice_of from.entry }
{
    match from {
        None => Some(0),
        Some(text) => choice_number_of(text),
    }
}

// The choice before which the trace ends, if one is given.
fn end_choice_of(to: Option<&str>) -> Option<Option<u64>>
    ensures { result ≡ end_choice_of to.entry }
{
    match to {
        None => Some(None),
        Some(text) => Some(Some(choice_number_of(text)?)),
    }
}

// How the trace is written.
fn form_of(table: bool, shared: bool) -> TraceForm
    ensures { result ≡ form_of table shared }
{
    match (table, shared) {
        (_, true) => TraceForm::Shared,
        (true, false) => TraceForm::Table,
        (false, false) => TraceForm::Lines,
    }
}

/// The plan of an order's options, of all words: a table, its rows that access memory, or lines,
/// from a choice on and up to, but not including, another. `None` exactly if one of both isn't a decimal number from
/// 0 to 2^64 - 1.
pub fn read_trace_plan(
    table: bool,
    shared: bool,
    from: Option<&str>,
    to: Option<&str>,
) -> Option<TracePlan>
    ensures { result ≡ trace_plan_of table shared from.entry to.entry }
{
    let from = first_choice_of(from)?;
    let to = end_choice_of(to)?;
    Some(TracePlan {
        form: form_of(table, shared),
        from,
        to,
        word: None,
    })
}
