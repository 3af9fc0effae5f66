//! Verdicts: whether the harts of a run satisfy their object's rule.
ghost use Rattle.std.specs.Prelude.{◌≡◌, ◌||◌, ◌&&◌, ◌==◌, not, Bool, true, false, map, slice_get};
ghost use Rattle.std.specs.List.{list_all};
ghost use Rattle.hart_step.specs.Hart.{hart_of};
ghost use Rattle.object_library.specs.Rules.{KeepsRule, is_exited, is_faulted};
ghost use Rattle.object_library.specs.Judging.{first_chosen, is_kept, verdict_of, is_consensus, is_adopt_commit, is_proposed, are_alike, agrees, decides, adopts_or_commits, holds, is_like};
ghost use Rattle.object_library.specs.declared.verdict.Verdict.TheVariants as verdict;

use crate::kind::Kind;
use crate::verdict::Verdict;
use hart_step::{Hart, HartState};
use machine::Choice;

/// Whether harts satisfy the rule of a kind, given their inputs and the choices of their run.
#[tactic(auto, using(crate::proofs::JudgeLemmas::kept_if, crate::proofs::JudgeLemmas::broken_if))]
pub fn judge(kind: Kind, inputs: &[u32], choices: &[Choice], harts: &[Hart]) -> Verdict
    ensures kept { result ≡ verdict.Kept → KeepsRule kind inputs.now choices.now (map hart_of harts.now) }
    ensures broken { result ≡ verdict.Broken → KeepsRule kind inputs.now choices.now (map hart_of harts.now) → ⊥ }
    ensures verdict { result ≡ verdict_of kind inputs.now choices.now (map hart_of harts.now) }
{
    if keeps(kind, inputs, choices, harts) {
        Verdict::Kept
    } else {
        Verdict::Broken
    }
}

// Whether the rule of a kind holds.
fn keeps(kind: Kind, inputs: &[u32], choices: &[Choice], harts: &[Hart]) -> bool
    ensures { result ≡ is_kept kind inputs.now choices.now (map hart_of harts.now) }
{
    match kind {
        Kind::Swap | Kind::Add | Kind::LrSc => is_consensus(inputs, choices, harts),
        Kind::AdoptCommit | Kind::Rounds => is_adopt_commit(inputs, choices, harts),
    }
}

// Whether the harts satisfy consensus.
#[tactic(auto, using(crate::proofs::JudgeLemmas::passed_one_more, crate::proofs::JudgeLemmas::fails_at, crate::proofs::JudgeLemmas::passes_all))]
fn is_consensus(inputs: &[u32], choices: &[Choice], harts: &[Hart]) -> bool
    ensures { result ≡ is_consensus inputs.now choices.now (map hart_of harts.now) }
{
    'harts: for hart in harts {
        if has_faulted(hart) || !decides(inputs, choices, harts, hart) {
            return false;
        }
    }
    true
}

// Whether the harts satisfy adopt-commit.
#[tactic(auto, using(crate::proofs::JudgeLemmas::passed_one_more, crate::proofs::JudgeLemmas::fails_at, crate::proofs::JudgeLemmas::passes_all))]
fn is_adopt_commit(inputs: &[u32], choices: &[Choice], harts: &[Hart]) -> bool
    ensures { result ≡ is_adopt_commit inputs.now choices.now (map hart_of harts.now) }
{
    let alike = are_alike(inputs, choices);
    'harts: for hart in harts {
        if has_faulted(hart) || !adopts_or_commits(alike, inputs, choices, harts, hart) {
            return false;
        }
    }
    true
}

// Whether a hart, if it has exited, has decided on a value that was proposed and that all others
// have.
fn decides(inputs: &[u32], choices: &[Choice], harts: &[Hart], hart: &Hart) -> bool
    ensures { result ≡ decides inputs.now choices.now (map hart_of harts.now) (hart_of hart.now) }
{
    !has_exited(hart)
        || (is_proposed(inputs, choices, hart.registers[10])
            && hart.registers[11] == 1
            && all_agree(hart, harts))
}

// Whether a hart, if it has exited, has a proposed value and either commits, and all others have
// its value, or adopts, and the chosen harts have different inputs.
fn adopts_or_commits(
    alike: bool,
    inputs: &[u32],
    choices: &[Choice],
    harts: &[Hart],
    hart: &Hart,
) -> bool
    ensures { result ≡ adopts_or_commits alike inputs.now choices.now (map hart_of harts.now) (hart_of hart.now) }
{
    !has_exited(hart)
        || (is_proposed(inputs, choices, hart.registers[10])
            && ((hart.registers[11] == 1 && all_agree(hart, harts))
                || (hart.registers[11] == 0 && !alike)))
}

// Whether all harts that have exited have the value of this one.
#[tactic(auto, using(crate::proofs::JudgeLemmas::passed_one_more, crate::proofs::JudgeLemmas::fails_at, crate::proofs::JudgeLemmas::passes_all))]
fn all_agree(hart: &Hart, harts: &[Hart]) -> bool
    ensures { result ≡ list_all (agrees (hart_of hart.now)) (map hart_of harts.now) }
{
    'others: for other in harts {
        if !agrees(hart, other) {
            return false;
        }
    }
    true
}

// Whether another hart, if it has exited, has the value of this one.
fn agrees(hart: &Hart, other: &Hart) -> bool
    ensures { result ≡ agrees (hart_of hart.now) (hart_of other.now) }
{
    !has_exited(other) || hart.registers[10] == other.registers[10]
}

// Whether a hart has exited.
fn has_exited(hart: &Hart) -> bool
    ensures { result ≡ is_exited hart.now.state }
{
    match hart.state {
        HartState::Exited(_) => true,
        HartState::Running | HartState::Faulted(_) => false,
    }
}

// Whether a hart has faulted.
fn has_faulted(hart: &Hart) -> bool
    ensures { result ≡ is_faulted hart.now.state }
{
    match hart.state {
        HartState::Faulted(_) => true,
        HartState::Running | HartState::Exited(_) => false,
    }
}

// Whether a value is the input of a chosen hart.
fn is_proposed(inputs: &[u32], choices: &[Choice], value: u32) -> bool
    ensures { result ≡ is_proposed inputs.now choices.now value }
{
    choices.iter().any(|c| is_input(inputs, c.hart, value))
}

// Whether a value is the input of a hart.
fn is_input(inputs: &[u32], hart: u32, value: u32) -> bool
    ensures { result ≡ holds (slice_get inputs.now hart) value }
{
    match inputs.get(hart as usize) {
        Some(input) => *input == value,
        None => false,
    }
}

// Whether all chosen harts have the first one's input.
fn are_alike(inputs: &[u32], choices: &[Choice]) -> bool
    ensures { result ≡ are_alike inputs.now choices.now }
{
    all_like(inputs, first_hart(choices), choices)
}

// The hart that was chosen first, or 0.
fn first_hart(choices: &[Choice]) -> u32
    ensures { result ≡ first_chosen choices.now }
{
    match choices {
        [first, ..] => first.hart,
        [] => 0,
    }
}

// Whether all chosen harts have the input of this one.
fn all_like(inputs: &[u32], hart: u32, choices: &[Choice]) -> bool
    ensures { result ≡ list_all (λ d. is_like (slice_get inputs.now hart) (slice_get inputs.now d.hart)) choices.now }
{
    choices.iter().all(|c| is_like(inputs, hart, c.hart))
}

// Whether two harts have the same input, or neither has one.
fn is_like(inputs: &[u32], hart: u32, other: u32) -> bool
    ensures { result ≡ is_like (slice_get inputs.now hart) (slice_get inputs.now other) }
{
    match (inputs.get(hart as usize), inputs.get(other as usize)) {
        (Some(a), Some(b)) => *a == *b,
        (None, None) => true,
        _ => false,
    }
}
