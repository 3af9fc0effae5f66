//! What is expected of a run.

ghost use Rattle.std.specs.Prelude.{◌≡◌, ℕ, IfOk, List, map};
ghost use Rattle.sched_run.specs.Chosen.{harts_of};
ghost use Rattle.outcome.specs.Ends.{verdict_on};
ghost use Rattle.hart_step.specs.Hart.{hart_of};
ghost use Rattle.machine.specs.Chosen.{is_chosen};
ghost use Rattle.machine.specs.declared.choice.Choice.{Choice};
ghost use Rattle.outcome.specs.Expect.{breaks, fails, has_faults, hangs, status_by};

use crate::run_outcome::Outcome;
use byte_io::Status;
use hart_step::Hart;
use object_library::{Kind, Verdict, judge};
use sched_run::Chosen;
use std::alloc::{AllocError, Allocator};

/// Whether a run may leave a hart running.
#[derive(Clone, Copy, PartialEq, Eq)]
pub enum Exit {
    /// It may: the number of steps may have been too small.
    May,
    /// Each hart must exit: a run that leaves one running has failed.
    Must,
}

/// What is expected of a run.
#[derive(Clone, Copy, PartialEq, Eq)]
pub struct Expect {
    /// The kind whose rule must be kept. Without one, no hart may fault.
    pub rule: Option<Kind>,
    /// Whether a hart may still run at the end.
    pub exit: Exit,
}

impl Expect {
    ghost use Rattle.outcome.specs.Expect.{fails, judged, status_of};

    /// How a run ended, by its inputs, the harts that its choices chose, and the harts that it
    /// left. The only error is out of memory.
    pub fn judge<A: Allocator>(
        self,
        alloc: A,
        inputs: &[u32],
        chosen: &Chosen,
        harts: &[Hart],
    ) -> Result<Outcome, AllocError>
        ensures { IfOk result (λ outcome. (choices : List Choice)
            → ((k : ℕ) → harts_of chosen.now k ≡ is_chosen choices k)
            → outcome ≡ judged self.rule inputs.now choices (map hart_of harts.now)) }
    {
        let verdict = verdict_after(alloc, self.rule, inputs, chosen, harts)?;
        Ok(Outcome::of(verdict, harts))
    }

    /// Whether a run has failed: its rule is broken, or without a rule a hart has faulted, or each
    /// hart must exit and one still runs.
    pub fn fails(self, outcome: Outcome) -> bool
        ensures { result ≡ fails self.exit outcome }
    {
        breaks(outcome.verdict)
            || faults(outcome.verdict, outcome.faulted)
            || hangs(self.exit, outcome.running > 0)
    }

    /// The status of a run: `Broken` if its rule is broken, else `Faulted` if it has failed, else
    /// `Done`.
    pub fn status(self, outcome: Outcome) -> Status
        ensures { result ≡ status_of self.exit outcome }
    {
        status_by(outcome.breaks(), self.fails(outcome))
    }
}

impl Outcome {
    /// Whether a rule is judged and broken.
    pub fn breaks(self) -> bool
        ensures { result ≡ breaks self.verdict }
    {
        breaks(self.verdict)
    }
}

/// The status of one or more runs, given whether a rule is broken in one of them, and whether one
/// of them has failed.
pub fn status_by(broken: bool, failed: bool) -> Status
    ensures { result ≡ status_by broken failed }
{
    if broken {
        Status::Broken
    } else if failed {
        Status::Faulted
    } else {
        Status::Done
    }
}

// The verdict on harts, if there is a rule, by which of them were chosen.
fn verdict_after<A: Allocator>(
    alloc: A,
    rule: Option<Kind>,
    inputs: &[u32],
    chosen: &Chosen,
    harts: &[Hart],
) -> Result<Option<Verdict>, AllocError>
    ensures { IfOk result (λ verdict. (choices : List Choice)
        → ((k : ℕ) → harts_of chosen.now k ≡ is_chosen choices k)
        → verdict ≡ verdict_on rule inputs.now choices (map hart_of harts.now)) }
{
    let Some(kind) = rule else {
        return Ok(None);
    };
    let picked = chosen.choices(alloc)?;
    let verdict = judge(kind, inputs, &picked, harts);
    Ok(Some(verdict))
}

// Whether a rule is judged and broken.
fn breaks(verdict: Option<Verdict>) -> bool
    ensures { result ≡ breaks verdict }
{
    match verdict {
        None | Some(Verdict::Kept) => false,
        Some(Verdict::Broken) => true,
    }
}

// Whether there is no rule, and harts have faulted.
fn faults(verdict: Option<Verdict>, faulted: usize) -> bool
    ensures { result ≡ has_faults verdict faulted }
{
    match verdict {
        None => faulted > 0,
        Some(_) => false,
    }
}

// Whether each hart must exit, and some hart still runs.
fn hangs(exit: Exit, running: bool) -> bool
    ensures { result ≡ hangs exit running }
{
    match exit {
        Exit::May => false,
        Exit::Must => running,
    }
}
