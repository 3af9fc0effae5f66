//! Runs of choices of one hart, the switches between them, and exchanges of neighbouring runs.
ghost use Rattle.std.specs.Prelude.{◌≡◌, ◌+◌, ◌≤◌, ◌<◌, ◌-◌, ℕ, IfOk, length, drop};
ghost use Rattle.cmd_shrink.specs.Switches.{hart_chosen_at, IsRun, switches, exchanged};

use machine::Choice;
use std::alloc::{AllocError, Allocator};

/// The index behind the run that begins at an index.
pub(crate) fn run_end(choices: &[Choice], from: usize) -> usize
    requires there { from < length choices.now }
    requires begins { (k : ℕ) → k + 1 ≡ from → hart_chosen_at k choices.now ≡ hart_chosen_at from choices.now → ⊥ }
    ensures { IsRun from result choices.now }
{
    let hart = choices[from].hart;
    let mut to = from + 1;
    'same: while to < choices.len() {
        if choices[to].hart != hart {
            return to;
        }
        to += 1;
    }
    to
}

/// The index of the next choice, behind a run, of the run's hart; the length if there is none.
pub(crate) fn next_of(choices: &[Choice], from: usize, to: usize) -> usize
    requires run { IsRun from to choices.now }
    ensures behind { to ≤ result }
    ensures within { result ≤ length choices.now }
    ensures others { (k : ℕ) → to ≤ k → k < result → hart_chosen_at k choices.now ≡ hart_chosen_at from choices.now → ⊥ }
    ensures same { result < length choices.now → hart_chosen_at result choices.now ≡ hart_chosen_at from choices.now }
{
    let hart = choices[from].hart;
    let mut next = to;
    'others: while next < choices.len() {
        if choices[next].hart == hart {
            return next;
        }
        next += 1;
    }
    next
}

// 1 if a choice is of another hart than the one before it, or else 0.
fn switch_before(choices: &[Choice], at: usize) -> usize
    requires some { 0 < at }
    requires there { at < length choices.now }
    ensures counted { result + switches (drop at choices.now) ≡ switches (drop (at - 1) choices.now) }
    ensures one { result ≤ 1 }
{
    if choices[at].hart == choices[at - 1].hart {
        0
    } else {
        1
    }
}

/// How often a choice is of another hart than the one before it.
pub(crate) fn switches(choices: &[Choice]) -> usize
    ensures { result ≡ switches choices.now }
{
    let mut count = 0;
    'choices: for at in 1..choices.len() {
        count += switch_before(choices, at);
    }
    count
}

/// A list after an exchange of two neighbouring parts, of which the second begins at `middle`.
pub(crate) fn exchanged<A: Allocator>(
    alloc: A,
    choices: &[Choice],
    from: usize,
    middle: usize,
    to: usize,
) -> Result<Vec<Choice, A>, AllocError>
    requires one { from ≤ middle }
    requires other { middle ≤ to }
    requires within { to ≤ length choices.now }
    ensures { IfOk result (λ list. list.items ≡ exchanged from middle to choices.now) }
{
    let mut list = Vec::with_capacity(alloc, choices.len())?;
    list.extend_from_slice(&choices[..from])?;
    list.extend_from_slice(&choices[middle..to])?;
    list.extend_from_slice(&choices[from..middle])?;
    list.extend_from_slice(&choices[to..])?;
    Ok(list)
}
