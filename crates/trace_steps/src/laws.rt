//! Laws of what is told of a run.
ghost use Rattle.std.specs.Prelude.{◌≡◌, ℕ, ◌<◌, List, ◌++◌, map, Bool, not, ◌&&◌, Option, Some, is_some, slice_get, take, length};
ghost use Rattle.std.specs.List.{All};
ghost use Rattle.hart_reservations.specs.Marks.{names};
ghost use Rattle.machine.specs.World.{World, step, run};
ghost use Rattle.machine.specs.declared.choice.Choice.{Choice};
ghost use Rattle.trace_steps.specs.Told.{hart_at, told_choice};
ghost use Rattle.trace_steps.specs.Tells.{tells};
ghost use Rattle.trace_steps.specs.Explains.{Followed, explains, followed_run};
ghost use Rattle.trace_steps.specs.Failures.{sc_failure};
ghost use Rattle.trace_steps.specs.declared.ending.Ending.{Ending};
ghost use Rattle.trace_steps.specs.declared.explaining.Explained.{Explained};
ghost use Rattle.trace_steps.specs.Covers.{IsNotWritten, IsElsewhere, IsOfAnother};

/// What is told of choices after choices is what is told of the earlier ones, and then of the later
/// ones from where those lead.
#[tactic(auto, using(crate::proofs::TellLemmas::tells_append))]
pub fn told_list_goes_on()
    ensures { (w : World) (choices more : List Choice)
        → tells w (choices ++ more) ≡ tells w choices ++ tells (run w choices) more }
{}

/// Each choice of a list is told once, in its place, as what it does in the world that those before
/// it lead to.
#[tactic(auto, using(crate::proofs::TellLemmas::told_in_place))]
pub fn each_choice_is_told_where_it_stands()
    ensures { (w : World) (choices : List Choice) (k : ℕ) (c : Choice) → slice_get choices k ≡ Some c
        → slice_get (tells w choices) k ≡ Some (told_choice (run w (take k choices)) c) }
{}

/// A step changes no register of its hart but the one that is told.
#[tactic(auto, using(crate::proofs::RegisterLemmas::unwritten_stays))]
pub fn registers_change_where_they_are_told()
    ensures { (w : World) (c : Choice) (r : ℕ) → IsNotWritten r (told_choice w c).written
        → (hart_at (step w c) c.hart).registers r ≡ (hart_at w c.hart).registers r }
{}

/// A byte that no access covers which is told of a run, is at its end what it was at its start.
#[tactic(auto, using(crate::proofs::ElsewhereLemmas::elsewhere_stays))]
pub fn memory_changes_where_it_is_told()
    ensures { (w : World) (choices : List Choice) (a : ℕ) → All (IsElsewhere a) (tells w choices)
        → (run w choices).memory.bytes a ≡ w.memory.bytes a }
{}

/// A hart of which nothing is told, is at the end of a run what it was at its start: registers, pc,
/// and whether it runs.
#[tactic(auto, using(crate::proofs::TellLemmas::untold_stays))]
pub fn hart_that_is_not_told_stays()
    ensures { (w : World) (choices : List Choice) (k : ℕ) → All (IsOfAnother k) (tells w choices)
        → hart_at (run w choices) k ≡ hart_at w k }
{}

/// A store-conditional has a reason to fail exactly where its hart hasn't reserved its word, or it is
/// refused: where the machine doesn't store.
#[tactic(auto, using(crate::proofs::FailureLemmas::fails_for_a_reason))]
pub fn store_conditional_fails_for_a_reason()
    ensures { (held : Option ℕ) (address h : ℕ) (refuse : Bool) (last : Option Ending)
        → is_some (sc_failure held address refuse h last) ≡ not (names held address && not refuse) }
{}

/// A run that is followed goes through the worlds of the run, and what is told of its choices is what
/// they did.
#[tactic(auto, using(crate::proofs::ExplainLemmas::follows_world, crate::proofs::ExplainLemmas::explains_tells))]
pub fn followed_run_is_the_run()
    ensures world { (f : Followed) (k : ℕ) (choices : List Choice) → (followed_run f k choices).world ≡ run f.world choices }
    ensures told { (f : Followed) (k : ℕ) (choices : List Choice)
        → map (λ (e : Explained). e.told) (explains f k choices) ≡ tells f.world choices }
{}
