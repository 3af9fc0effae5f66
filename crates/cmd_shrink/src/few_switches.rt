//! Moves runs of choices to others of their hart, so that there are fewer switches of harts.
ghost use Rattle.std.specs.Prelude.{◌≡◌, ◌≤◌, ◌<◌, ℕ, Ok, None, IfOk, IfSome, length};
ghost use Rattle.cmd_shrink.specs.Less.{IsLessOfEach, weight};
ghost use Rattle.cmd_shrink.specs.Switches.{
  AreNext,
  HasFewSwitches,
  IsRun,
  Settles,
  ShareNoHart,
  StaySo,
};

use crate::failing::Failing;
use crate::runs::{exchanged, next_of, run_end, switches};
use machine::Choice;
use std::alloc::{AllocError, Allocator};

// The list after an exchange of two neighbouring parts with no hart in common, if it has fewer
// switches and still fails.
fn fewer_at<A: Allocator + Copy, F: Failing>(
    alloc: A,
    test: &F,
    choices: &[Choice],
    from: usize,
    middle: usize,
    to: usize,
) -> Result<Option<Vec<Choice, A>>, AllocError>
    requires one { from ≤ middle }
    requires other { middle ≤ to }
    requires within { to ≤ length choices.now }
    requires apart { ShareNoHart from middle to choices.now }
    ensures found { IfOk result (λ found. IfSome found (λ list.
        Settles (F.fails test.now) list.items choices.now)) }
    ensures none { result ≡ Ok None → StaySo (F.fails test.now) from middle to choices.now }
{
    let list = exchanged(alloc, choices, from, middle, to)?;
    if switches(&list) >= switches(choices) {
        return Ok(None);
    }
    if test.is_failing(&list)? {
        return Ok(Some(list));
    }
    Ok(None)
}

// The list after the first exchange of neighbouring runs by which it has fewer switches and still
// fails; `None` if there is no such exchange.
#[tactic(auto, using(crate::proofs::RunLemmas::next_begins, crate::proofs::RunLemmas::tried_first, crate::proofs::RunLemmas::tried_all, crate::proofs::RunLemmas::tried_none, crate::proofs::ExchangeLemmas::apart_runs))]
fn first_fewer<A: Allocator + Copy, F: Failing>(
    alloc: A,
    test: &F,
    choices: &[Choice],
) -> Result<Option<Vec<Choice, A>>, AllocError>
    ensures found { IfOk result (λ found. IfSome found (λ list.
        Settles (F.fails test.now) list.items choices.now)) }
    ensures none { result ≡ Ok None → (i j k : ℕ) → IsRun i j choices.now → IsRun j k choices.now
        → StaySo (F.fails test.now) i j k choices.now }
{
    if choices.is_empty() {
        return Ok(None);
    }
    let mut from = 0;
    let mut middle = run_end(choices, from);
    'runs: while middle < choices.len() {
        let to = run_end(choices, middle);
        if let Some(fewer) = fewer_at(alloc, test, choices, from, middle, to)? {
            return Ok(Some(fewer));
        }
        from = middle;
        middle = to;
    }
    Ok(None)
}

// The list after a move of a run up to the next one of its hart, or of that one back to it, if it
// has fewer switches and still fails.
#[tactic(auto, using(crate::proofs::RunLemmas::next_run_begins, crate::proofs::RunLemmas::no_next, crate::proofs::ExchangeLemmas::apart_up, crate::proofs::ExchangeLemmas::apart_back))]
fn joined_at<A: Allocator + Copy, F: Failing>(
    alloc: A,
    test: &F,
    choices: &[Choice],
    from: usize,
    to: usize,
) -> Result<Option<Vec<Choice, A>>, AllocError>
    requires run { IsRun from to choices.now }
    ensures found { IfOk result (λ found. IfSome found (λ list.
        Settles (F.fails test.now) list.items choices.now)) }
    ensures none { result ≡ Ok None → (m n : ℕ) → AreNext from to m n choices.now
        → StaySo (F.fails test.now) from to m choices.now × StaySo (F.fails test.now) to m n choices.now }
{
    let next = next_of(choices, from, to);
    if next == choices.len() {
        return Ok(None);
    }
    let end = run_end(choices, next);
    if let Some(joined) = fewer_at(alloc, test, choices, from, to, next)? {
        return Ok(Some(joined));
    }
    fewer_at(alloc, test, choices, to, next, end)
}

// The list after the first such move; `None` if there is none.
#[tactic(auto, using(crate::proofs::RunLemmas::next_begins, crate::proofs::RunLemmas::moved_none, crate::proofs::RunLemmas::moved_all))]
fn first_joined<A: Allocator + Copy, F: Failing>(
    alloc: A,
    test: &F,
    choices: &[Choice],
) -> Result<Option<Vec<Choice, A>>, AllocError>
    ensures found { IfOk result (λ found. IfSome found (λ list.
        Settles (F.fails test.now) list.items choices.now)) }
    ensures none { result ≡ Ok None → (i j m n : ℕ) → AreNext i j m n choices.now
        → StaySo (F.fails test.now) i j m choices.now × StaySo (F.fails test.now) j m n choices.now }
{
    let mut from = 0;
    'runs: while from < choices.len() {
        let to = run_end(choices, from);
        if let Some(joined) = joined_at(alloc, test, choices, from, to)? {
            return Ok(Some(joined));
        }
        from = to;
    }
    Ok(None)
}

// The list after a move of a run, or else an exchange of two; `None` if there is none.
fn first_settled<A: Allocator + Copy, F: Failing>(
    alloc: A,
    test: &F,
    choices: &[Choice],
) -> Result<Option<Vec<Choice, A>>, AllocError>
    ensures found { IfOk result (λ found. IfSome found (λ list.
        Settles (F.fails test.now) list.items choices.now)) }
    ensures none { result ≡ Ok None → HasFewSwitches (F.fails test.now) choices.now }
{
    if let Some(joined) = first_joined(alloc, test, choices)? {
        return Ok(Some(joined));
    }
    first_fewer(alloc, test, choices)
}

/// Moves one run after another to a run of its hart, until no move or exchange by which there are
/// fewer switches fails.
#[tactic(auto, using(crate::proofs::EachLemmas::each_same, crate::proofs::EachLemmas::each_equal))]
pub(crate) fn exchange_runs<A: Allocator + Copy, F: Failing>(
    alloc: A,
    test: &F,
    given: Vec<Choice, A>,
) -> Result<Vec<Choice, A>, AllocError>
    requires fails { F.fails test.now given.items }
    ensures less { IfOk result (λ list. IsLessOfEach list.items given.items) }
    ensures fails { IfOk result (λ list. F.fails test.now list.items) }
    ensures weighs { IfOk result (λ list. weight list.items ≡ weight given.items) }
    ensures few { IfOk result (λ list. HasFewSwitches (F.fails test.now) list.items) }
{
    let mut choices = given;
    'exchanges: while let Some(fewer) = first_settled(alloc, test, &choices)? {
        choices = fewer;
    }
    Ok(choices)
}
