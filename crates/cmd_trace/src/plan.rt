//! What a trace shows.
ghost use Rattle.std.specs.Prelude.{◌≡◌, ◌≤◌};
ghost use Rattle.cmd_trace.specs.Trace.{is_at_word, is_told, traced_span, told_count};

use trace_steps::ToldAccess;
use trace_text::Span;

/// The form of a trace.
#[derive(Clone, Copy, PartialEq, Eq)]
pub enum TraceForm {
    /// A head and a line for each choice, each an object of JSON.
    Lines,
    /// A table in Markdown, with a row for each choice and a column for each hart.
    Table,
    /// The rows of that table alone whose instruction accesses memory.
    Shared,
}

/// The choices of a run that are traced, and the form. Choices are numbered from 0, by their places
/// in the list.
#[derive(Clone, Copy, PartialEq, Eq)]
pub struct TracePlan {
    /// The form of the trace.
    pub form: TraceForm,
    /// The first traced choice.
    pub from: u64,
    /// The choice before which the trace ends, if the run has as many; `None` for the end of the
    /// list.
    pub to: Option<u64>,
    /// The word of memory whose accesses alone are traced, by its address in bytes; `None` for all
    /// choices.
    pub word: Option<u32>,
}

/// The traced choices, given the number of choices.
pub(crate) fn span_of(plan: TracePlan, count: u64) -> Span
    ensures value { result ≡ traced_span plan count }
    ensures order { result.from ≤ result.to }
{
    let end = match plan.to {
        None => count,
        Some(to) => to.min(count),
    };
    Span {
        from: plan.from,
        to: end.max(plan.from),
    }
}

/// Number of traced choices.
pub(crate) fn told_count(span: Span) -> u64
    requires { span.from ≤ span.to }
    ensures { result ≡ told_count span }
{
    span.to - span.from
}

// Whether one of the bytes of an access is one of a word's, which has this address.
fn is_at_word(word: u32, access: &ToldAccess) -> bool
    ensures { result ≡ is_at_word word access.now }
{
    let (first, word) = (u64::from(access.address), u64::from(word));
    first < word + 4 && word < first + u64::from(access.size)
}

/// Whether a choice is traced whose instruction has this access: each one, or those of a word
/// alone.
pub(crate) fn is_told(word: Option<u32>, access: Option<ToldAccess>) -> bool
    ensures { result ≡ is_told word access }
{
    match (word, access) {
        (None, _) => true,
        (Some(_), None) => false,
        (Some(word), Some(access)) => is_at_word(word, &access),
    }
}
