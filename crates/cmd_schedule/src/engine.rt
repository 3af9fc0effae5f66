//! `schedule`: from a plan to the choice text of its choices.

ghost use Rattle.std.specs.Prelude.{◌≡◌, ◌≢◌, ◌-◌, ◌^◌, ◌<◌, Ok, Err, IfOk, IfErr, IfSome, string_bytes};
ghost use Rattle.sched_text.specs.Printing.{choices_text};
ghost use Rattle.program_open.specs.CommandFaults.{IfNames, IsRefusal};
ghost use Rattle.cmd_schedule.specs.Plans.{IsScheduleText};
ghost use Rattle.cmd_schedule.specs.Seeds.{choices_answer, seed_list};

use crate::plan::{Plan, SeedPlan};
use byte_io::{Source, Status};
use image::Image;
use machine::{Inputs, Machine};
use mem_flat::FlatStore;
use program_open::{CommandFault, ProgramForm, read_image};
use sched_draw::{Schedule, list_run, list_schedule};
use sched_text::print_choices;
use std::alloc::{AllocError, Allocator};

/// `schedule` without a program: the choice text of a plan's choices, one item per choice. The only
/// error is out of memory.
pub fn schedule_engine<A: Allocator + Copy>(
    alloc: A,
    plan: Plan,
) -> Result<(String<A>, Status), CommandFault>
    ensures status { IfOk result (λ answer. answer.1 ≡ Status.Done) }
    ensures text { IfOk result (λ answer. IsScheduleText plan (string_bytes answer.0)) }
    ensures fault { IfErr result (λ fault. fault ≡ CommandFault.Memory) }
{
    match plan_text(alloc, plan) {
        Ok(text) => Ok((text, Status::Done)),
        Err(AllocError) => Err(CommandFault::Memory),
    }
}

// The choice text of a plan's choices.
fn plan_text<A: Allocator + Copy>(alloc: A, plan: Plan) -> Result<String<A>, AllocError>
    ensures { IfOk result (λ text. IsScheduleText plan (string_bytes text)) }
{
    let choices = list_schedule(alloc, plan.schedule, plan.harts, u64::from(plan.steps))?;
    let text = print_choices(alloc, &choices)?;
    Ok(text)
}

// The choice text of a seed's choices in a run of an image.
fn seed_text<A: Allocator + Copy>(
    alloc: A,
    inputs: &Inputs,
    plan: SeedPlan,
    image: &Image<A>,
) -> Result<String<A>, AllocError>
    ensures { IfOk result (λ text.
        string_bytes text ≡ choices_text (seed_list plan inputs.now image.now)) }
{
    let mut machine: Machine<FlatStore<A>, A> = Machine::start(alloc, image, inputs)?;
    let schedule = Schedule::Seeded {
        seed: plan.seed,
        draw: plan.draw,
    };
    let choices = list_run(alloc, &mut machine, schedule, inputs.harts(), plan.steps)?;
    let text = print_choices(alloc, &choices)?;
    Ok(text)
}

/// `schedule` for the choices of a run: reads an ELF file to its end, runs it under the choices
/// that a seed draws, and returns their text, one item per choice.
#[tactic(auto, unfolding(crate::specs::Seeds::choices_answer))]
pub fn seed_engine<A: Allocator + Copy, P: Source>(
    alloc: A,
    inputs: &[u32],
    plan: SeedPlan,
    program: &mut P,
) -> Result<(String<A>, Status), CommandFault>
    requires { P.failures program.old < 2 ^ 64 - 1 }
    // The text of the plan's choices.
    ensures done { IfOk result (λ answer. IfSome (P.left program.old) (λ p.
        choices_answer plan inputs.now p ≡ Ok (string_bytes answer.0, answer.1))) }
    // An input is invalid.
    ensures refused { IfErr result (λ fault. IsRefusal fault
        → IfSome (P.left program.old) (λ p. choices_answer plan inputs.now p ≡ Err fault)) }
    // The program's device is named only if it failed, and no other is.
    ensures read { IfErr result (λ fault. IfNames fault
        (P.failures program.old < P.failures program.new) ⊥ ⊥ ⊥) }
{
    let image = read_image(alloc, ProgramForm::Elf, program)?;
    let inputs = Inputs::new(inputs)?;
    match seed_text(alloc, &inputs, plan, &image) {
        Ok(text) => Ok((text, Status::Done)),
        Err(AllocError) => Err(CommandFault::Memory),
    }
}
