//! How a run ended.

ghost use Rattle.std.specs.Prelude.{◌≡◌, ◌≤◌, map};
ghost use Rattle.hart_step.specs.Hart.{hart_of};
ghost use Rattle.outcome.specs.Outcome.{counted, counts, outcome_of, some_run};

use hart_step::{Hart, HartState};
use object_library::Verdict;

/// A way for a hart to end.
#[derive(Clone, Copy, PartialEq, Eq)]
pub enum End {
    /// The hart has exited.
    Exited,
    /// The hart was stopped by its own instruction.
    Faulted,
    /// The hart still runs.
    Running,
}

/// How a run ended, as far as it is judged.
#[derive(Clone, Copy, Debug, Drop, PartialEq, Eq, Hash)]
pub struct Outcome {
    /// Number of harts that have exited.
    pub exited: usize,
    /// Number of harts that were stopped by their own instruction.
    pub faulted: usize,
    /// Number of harts that still run.
    pub running: usize,
    /// The verdict, if a rule is judged.
    pub verdict: Option<Verdict>,
}

impl Outcome {
    /// The outcome of a run that left these harts, with the verdict on it.
    pub fn of(verdict: Option<Verdict>, harts: &[Hart]) -> Outcome
        ensures { result ≡ outcome_of verdict (map hart_of harts.now) }
    {
        Outcome {
            exited: count_ends(End::Exited, harts),
            faulted: count_ends(End::Faulted, harts),
            running: count_ends(End::Running, harts),
            verdict,
        }
    }
}

// 1 if a hart in this state ended in this way, else 0.
fn counts(wanted: End, state: HartState) -> usize
    ensures value { result ≡ counts wanted state }
    ensures small { result ≤ 1 }
{
    match (wanted, state) {
        (End::Exited, HartState::Exited(_)) => 1,
        (End::Faulted, HartState::Faulted(_)) => 1,
        (End::Running, HartState::Running) => 1,
        _ => 0,
    }
}

/// Number of harts that ended in this way.
pub fn count_ends(wanted: End, harts: &[Hart]) -> usize
    ensures { result ≡ counted wanted (map hart_of harts.now) }
{
    let mut count = 0;
    'harts: for hart in harts {
        count += counts(wanted, hart.state);
    }
    count
}

/// Whether some hart still runs.
pub fn some_run(harts: &[Hart]) -> bool
    ensures { result ≡ some_run (map hart_of harts.now) }
{
    count_ends(End::Running, harts) > 0
}
