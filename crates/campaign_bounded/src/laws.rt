//! Laws: which lists of choices the schedules are.
ghost use Rattle.std.specs.Prelude.{◌≡◌, ℕ, ◌<◌, ◌≤◌, List, [], ◌++◌, length, slice_index_or, All};
ghost use Rattle.std.specs.List.{Contains};
ghost use Rattle.machine.specs.World.{World, run};
ghost use Rattle.machine.specs.declared.choice.Choice.{Choice};
ghost use Rattle.sched_draw.specs.Turns.{plain_choice};
ghost use Rattle.campaign_bounded.specs.Bounded.{schedules};
ghost use Rattle.campaign_bounded.specs.Preemptions.{AreOfRunning, IsBoundedSchedule, preemptions, steps_of};

/// The schedules of a world's harts with at most `most` choices and at most k preemptions are the
/// lists of plain choices, each of a hart that runs, that have as many choices, or fewer where no
/// hart runs any more, and no more preemptions.
pub fn schedules_are_bounded()
    ensures only { (harts most k : ℕ) (start : World) (choices : List Choice)
        → length start.harts ≤ harts → Contains (schedules harts most k start) choices
        → IsBoundedSchedule most k start choices }
    ensures all { (harts most k : ℕ) (start : World) (choices : List Choice)
        → length start.harts ≤ harts → IsBoundedSchedule most k start choices
        → Contains (schedules harts most k start) choices }
{}

/// No schedule stands at two places.
pub fn each_schedule_is_one()
    ensures { (harts most k : ℕ) (start : World) (i j : ℕ)
        → i < j → j < length (schedules harts most k start)
        → slice_index_or (schedules harts most k start) i []
        ≡ slice_index_or (schedules harts most k start) j [] → ⊥ }
{}

/// Each list of steps of running harts, no longer and with no more preemptions, is the beginning of
/// one of them.
pub fn each_list_begins_a_schedule()
    ensures { (harts most k : ℕ) (start : World) (choices : List Choice)
        → length start.harts ≤ harts → AreOfRunning start choices
        → preemptions start choices ≤ k → length choices ≤ most
        → (more : List Choice) × Contains (schedules harts most k start) (choices ++ more) }
{}

/// Choices of harts that don't run do nothing: without them a list of plain choices is a list of
/// steps, no longer, and leads to the same world.
pub fn idle_choices_do_nothing()
    ensures steps { (w : World) (choices : List Choice)
        → All (λ c. c ≡ plain_choice c.hart) choices → AreOfRunning w (steps_of w choices) }
    ensures fewer { (w : World) (choices : List Choice)
        → length (steps_of w choices) ≤ length choices }
    ensures same { (w : World) (choices : List Choice)
        → run w (steps_of w choices) ≡ run w choices }
{}
