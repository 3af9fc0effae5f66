//! Laws of schedules.

ghost use Rattle.std.specs.Prelude.{◌≡◌, ◌≢◌, ◌+◌, ◌-◌, ◌*◌, ◌/◌, ◌%◌, ◌==◌, ◌<◌, ◌≤◌, ℕ, true, false, List, length, take, slice_get};
ghost use Rattle.std.specs.List.{All, Contains};
ghost use Rattle.hart_step.specs.Hart.{HartValue};
ghost use Rattle.machine.specs.Running.{runs};
ghost use Rattle.machine.specs.World.{World, run};
ghost use Rattle.machine.specs.declared.choice.Choice.{Choice};
ghost use Rattle.sched_draw.specs.Bursts as bursts;
ghost use Rattle.sched_draw.specs.ChangePoints.{places_of};
ghost use Rattle.sched_draw.specs.Priorities.{WatchedDrawing, priority_drawing, is_point, next_priority_choice, spins_there, pauses_there, after_watched_choice, priority_choices, NeverWaits, GivesWay};
ghost use Rattle.sched_draw.specs.Refusing.{even_choices, is_refused, IsOneIn};
ghost use Rattle.sched_draw.specs.Schedules.{drawn_choices};
ghost use Rattle.sched_draw.specs.Seeds.{seeded_choices};
ghost use Rattle.sched_draw.specs.declared.change_points.ChangePoints.{ChangePoints};
ghost use Rattle.sched_draw.specs.declared.change_points.ChangePoints.TheVariants as points;
ghost use Rattle.sched_draw.specs.declared.steps.Steps.{Steps};
ghost use Rattle.sched_draw.specs.declared.order.Order.TheVariants as orders;
ghost use Rattle.sched_draw.specs.declared.refusals.Refusals.{Refusals};
ghost use Rattle.sched_draw.specs.declared.refusals.Refusals.TheVariants as refusing;

/// The usual refusals are those of a plain seed: a word refuses if the lowest four bits of its
/// upper half are 0, and the choices that are drawn evenly are the seed's.
pub fn usual_refusals()
    ensures words { (refusals : Refusals) (word : ℕ) → IsOneIn 16 refusals → is_refused refusals word ≡ (word / 65536 % 16 == 0) }
    ensures choices { (refusals : Refusals) (harts steps seed : ℕ) → IsOneIn 16 refusals
        → even_choices refusals harts steps seed ≡ seeded_choices harts steps seed }
    ensures drawn { (points : ChangePoints) (refusals : Refusals) (world : World) (harts steps seed : ℕ) → IsOneIn 16 refusals
        → drawn_choices (record { order = orders.Even; refusals = refusals; points = points }) world harts steps seed
        ≡ seeded_choices harts steps seed }
{}

/// With `Never` no word and no choice refuses.
pub fn never_refuses()
    ensures words { (word : ℕ) → is_refused refusing.Never word ≡ false }
    ensures choices { (harts steps seed : ℕ) → All (λ c. c.refuse ≡ false) (even_choices refusing.Never harts steps seed) }
{}

/// With one in 1 every word and every choice refuses.
pub fn one_in_1_refuses_each()
    ensures words { (refusals : Refusals) (word : ℕ) → IsOneIn 1 refusals → is_refused refusals word ≡ true }
    ensures choices { (refusals : Refusals) (harts steps seed : ℕ) → IsOneIn 1 refusals
        → All (λ c. c.refuse ≡ true) (even_choices refusals harts steps seed) }
{}

/// A burst is of one hart: the next choices, as many as are left of it, all name its hart.
pub fn a_burst_is_of_one_hart()
    ensures { (steps : ℕ) (d : bursts.BurstDrawing) → steps ≤ (bursts.in_burst d).left
        → All (λ c. c.hart ≡ (bursts.in_burst d).hart) (bursts.burst_choices_drawn steps d) }
{}

/// A burst that begins is of an existing hart, and has 1 to `2 * mean - 1` choices.
pub fn a_burst_begins_within_its_bounds()
    ensures there { (d : bursts.BurstDrawing) → 0 < d.harts → (bursts.burst_drawn d).hart < d.harts }
    ensures some { (d : bursts.BurstDrawing) → 0 < (bursts.burst_drawn d).left }
    ensures most { (d : bursts.BurstDrawing) → 0 < d.mean → (bursts.burst_drawn d).left ≤ 2 * d.mean - 1 }
{}

/// The order that a seed draws has each hart, and no other number; as it is as long as the number
/// of harts, it has each once.
pub fn each_hart_has_a_place()
    ensures count { (harts depth steps seed : ℕ) → length (priority_drawing harts depth steps seed).order ≡ harts }
    ensures each { (harts depth steps seed hart : ℕ) → hart < harts → Contains (priority_drawing harts depth steps seed).order hart }
    ensures there { (harts depth steps seed : ℕ) → All (λ h. h < harts) (priority_drawing harts depth steps seed).order }
{}

/// A seed draws `depth - 1` change points, each at a step of the run, and of its first `n` steps
/// where they are drawn within these.
pub fn change_points_are_places()
    ensures count { (harts depth places seed : ℕ) → length (priority_drawing harts depth places seed).points ≡ depth - 1 }
    ensures there { (points : ChangePoints) (harts depth steps seed : ℕ) → 0 < steps
        → All (λ p. p < steps) (priority_drawing harts depth (places_of points steps) seed).points }
    ensures within { (first : Steps) (harts depth steps seed : ℕ) → 0 < steps
        → All (λ p. p < first.count) (priority_drawing harts depth (places_of (points.Within first) steps) seed).points }
{}

/// Within as many steps, a run of more steps begins with the choices of one of fewer.
pub fn more_steps_change_nothing()
    ensures { (first : Steps) (world : World) (refusals : Refusals) (harts depth steps more seed : ℕ) → first.count ≤ steps
        → take steps (priority_choices world harts depth (places_of (points.Within first) (steps + more)) refusals (steps + more) seed)
        ≡ priority_choices world harts depth (places_of (points.Within first) steps) refusals steps seed }
{}

/// A stopped hart is never chosen while another runs.
pub fn a_stopped_hart_waits()
    ensures { (world : World) (refusals : Refusals) (depth places steps seed : ℕ)
        → NeverWaits world (priority_choices world (length world.harts) depth places refusals steps seed) }
{}

/// Steps of harts that have stopped change nothing; so once all have stopped, nothing changes any
/// more.
pub fn nothing_changes_once_all_have_stopped()
    ensures stopped { (world : World) (choices : List Choice) → All (λ c. runs world.harts c.hart ≡ false) choices
        → run world choices ≡ world }
    ensures all { (world : World) (choices : List Choice) → ((hart : ℕ) → runs world.harts hart ≡ false)
        → run world choices ≡ world }
{}

/// A hart that falls is last: the next choice, whatever the harts' states by then, is not of it
/// while another runs. It falls at a change point, and where it spins.
pub fn a_hart_that_falls_waits()
    ensures point { (refusals : Refusals) (place other : ℕ) (world : World) (later : List HartValue) (d : WatchedDrawing)
        → is_point place d.drawing.points ≡ true
        → Contains d.drawing.order other → other ≢ (next_priority_choice refusals world.harts d.drawing).hart → runs later other ≡ true
        → (next_priority_choice refusals later (after_watched_choice place world d).drawing).hart
        ≢ (next_priority_choice refusals world.harts d.drawing).hart }
    ensures spins { (refusals : Refusals) (place other : ℕ) (world : World) (later : List HartValue) (d : WatchedDrawing)
        → spins_there d.watch (next_priority_choice refusals world.harts d.drawing).hart
        (slice_get world.harts (next_priority_choice refusals world.harts d.drawing).hart) ≡ true
        → Contains d.drawing.order other → other ≢ (next_priority_choice refusals world.harts d.drawing).hart → runs later other ≡ true
        → (next_priority_choice refusals later (after_watched_choice place world d).drawing).hart
        ≢ (next_priority_choice refusals world.harts d.drawing).hart }
{}

/// A hart that comes to a `pause` falls too: whatever the state of drawing, the next choice is not
/// of it while another runs. So in a run by priorities the choice after its `pause` is of another
/// hart, if one runs then.
pub fn a_hart_that_pauses_falls()
    ensures falls { (refusals : Refusals) (place other : ℕ) (world : World) (later : List HartValue) (d : WatchedDrawing)
        → pauses_there world.memory (slice_get world.harts (next_priority_choice refusals world.harts d.drawing).hart) ≡ true
        → Contains d.drawing.order other → other ≢ (next_priority_choice refusals world.harts d.drawing).hart → runs later other ≡ true
        → (next_priority_choice refusals later (after_watched_choice place world d).drawing).hart
        ≢ (next_priority_choice refusals world.harts d.drawing).hart }
    ensures run { (world : World) (refusals : Refusals) (depth places steps seed : ℕ)
        → GivesWay world (priority_choices world (length world.harts) depth places refusals steps seed) }
{}
