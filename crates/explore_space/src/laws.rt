//! Why local steps can wait.
ghost use Rattle.std.specs.Prelude.{◌≡◌, ◌≤◌, Some, Option};
ghost use Rattle.machine.specs.World.{World};
ghost use Rattle.property_judge.specs.Property.{harts_between};
ghost use Rattle.explore_laws.specs.Covering.{WorldCovers};
ghost use Rattle.explore_laws.specs.Quiet.{CanWait};
ghost use Rattle.explore_space.specs.Habits.{Habits, clear_by_habit, quiet_by_habit, stride_by_habit};
ghost use Rattle.explore_space.specs.Resting.{all_clear, is_quiet, stride_of};
ghost use Rattle.explore_space.specs.declared.section.Section.{Section};

/// Local steps can wait, whatever steps of other harts come between: these change no register, and
/// no code.
#[tactic(auto, using(crate::proofs::RestLemmas::section_waits))]
pub fn local_steps_can_wait()
    ensures { (section : Option Section) → CanWait (is_quiet section) all_clear (stride_of section) }
{}

/// No hart stands in a section unseen: at least as many stand in it in each world that covers a
/// run's world as in that one.
#[tactic(auto, using(crate::proofs::StandLemmas::within_passes))]
pub fn harts_in_a_section_are_seen()
    ensures { (habits : Habits) (section : Section) → habits.section ≡ Some section
        → (s w : World) → WorldCovers (quiet_by_habit habits) s w
        → harts_between section.from section.to w.harts ≤ harts_between section.from section.to s.harts }
{}

/// Local steps, steps on a hart's own words and loads of words that can't be written can wait, where
/// the steps of others are clear of those words.
#[tactic(auto, using(crate::proofs::HabitLemmas::habits_wait))]
pub fn own_steps_can_wait()
    ensures { (habits : Habits) → CanWait (quiet_by_habit habits) (clear_by_habit habits) (stride_by_habit habits) }
{}
