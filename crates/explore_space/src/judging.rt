//! Whether a run has failed, by the machine that took it.
ghost use Rattle.std.specs.Prelude.{◌≡◌, ◌||◌, ℕ, IfOk, take};
ghost use Rattle.image.specs.Image.{ImageValue};
ghost use Rattle.hart_step.specs.Hart.{hart_of};
ghost use Rattle.machine.specs.Chosen.{is_chosen};
ghost use Rattle.machine.specs.Start.{started};
ghost use Rattle.machine.specs.State.{state};
ghost use Rattle.machine.specs.World.{run};
ghost use Rattle.outcome.specs.Expect.{fails, judged};
ghost use Rattle.outcome.specs.declared.expect.Exit.TheVariants.{May};
ghost use Rattle.sched_run.specs.Chosen.{harts_of};
ghost use Rattle.explore_space.specs.Every.{run_fails};
ghost use Rattle.explore_space.specs.Failing.{breaks_asked, breaks_section, breaks_word};

use crate::expanding::Walk;
use crate::question::Always;
use crate::section::Section;
use hart_reservations::MAX_HARTS;
use machine::{Choice, Inputs, Machine};
use mem_flat::FlatStore;
use object_library::Kind;
use outcome::{Exit, Expect};
use property_judge::{Property, holds_in};
use sched_run::Chosen;
use std::alloc::{AllocError, Allocator};

// Whether a word isn't what it must be, if that is asked.
fn breaks_word<A: Allocator>(machine: &Machine<FlatStore<A>, A>, always: Option<Always>) -> bool
    ensures { result ≡ breaks_word always (state machine.now) }
{
    match always {
        None => false,
        Some(
            Always {
                word,
                comparison,
                number,
            },
        ) => !holds_in(
            Property::Always {
                word,
                comparison,
                number,
            },
            machine,
        ),
    }
}

// Whether two harts stand in the section, if that is asked.
fn breaks_section<A: Allocator>(
    machine: &Machine<FlatStore<A>, A>,
    section: Option<Section>,
) -> bool
    ensures { result ≡ breaks_section section (state machine.now) }
{
    match section {
        None => false,
        Some(Section { from, to }) => !holds_in(Property::NeverBoth { from, to }, machine),
    }
}

// The harts that choices choose. A choice of no hart is refused here.
fn chosen_by(choices: &[Choice]) -> Result<Chosen, AllocError>
    ensures { IfOk result (λ chosen. (k : ℕ) → harts_of chosen k ≡ is_chosen choices.now k) }
{
    let mut chosen = Chosen::new();
    'choices: for choice in choices {
        let hart = choice.hart as usize;
        if hart >= MAX_HARTS {
            return Err(AllocError);
        }
        chosen.add(hart);
    }
    Ok(chosen)
}

/// Whether the run that a walk has taken from a program's start fails. The only error is out of
/// memory.
pub fn has_failed<A: Allocator + Copy>(
    alloc: A,
    walk: &Walk<A>,
    inputs: &Inputs,
    rule: Option<Kind>,
    always: Option<Always>,
    section: Option<Section>,
) -> Result<bool, AllocError>
    ensures { IfOk result (λ failed. (image : ImageValue) → state walk.now.machine ≡ run (started image inputs.now) walk.now.choices.items
        → failed ≡ run_fails rule always section image inputs.now walk.now.choices.items) }
{
    if breaks_word(&walk.machine, always) || breaks_section(&walk.machine, section) {
        return Ok(true);
    }
    let chosen = chosen_by(&walk.choices)?;
    let expect = Expect {
        rule,
        exit: Exit::May,
    };
    let outcome = expect.judge(alloc, inputs.words(), &chosen, walk.machine.ends())?;
    Ok(expect.fails(outcome))
}
