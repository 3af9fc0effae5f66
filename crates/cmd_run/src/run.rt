//! `run`: from a program, inputs and a choice text to the harts' ends and the verdict on them.

ghost use Rattle.std.specs.Prelude.{ℕ, List, ◌≡◌, ◌≢◌, ◌^◌, ◌-◌, ◌<◌, Ok, Err, IfOk, IfErr, IfSome, length, map, string_bytes};
ghost use Rattle.std.specs.List.{All};
ghost use Rattle.cmd_run.specs.Certified.{AnswersKept, IsCertified};
ghost use Rattle.cmd_run.specs.Enough.{EndsWell, IsChosenEnough};
ghost use Rattle.program_open.specs.Opening.{program_opening, with_choices};
ghost use Rattle.program_open.specs.Program.{program_of};
ghost use Rattle.cmd_run.specs.Run.{run_after, run_answer, shown_with};
ghost use Rattle.hart_step.specs.Hart.{hart_of};
ghost use Rattle.machine.specs.Chosen.{is_chosen};
ghost use Rattle.machine.specs.declared.choice.Choice.{Choice};
ghost use Rattle.sched_text.specs.Reading.{choices_read};
ghost use Rattle.sched_run.specs.Chosen.{harts_of};
ghost use Rattle.outcome.specs.Ends.{verdict_on};
ghost use Rattle.machine.specs.Start.{IsStartable};
ghost use Rattle.program_open.specs.CommandFaults.{IfNames, IsOfProgram, IsRefusal};
ghost use Rattle.image.specs.Image.{ImageValue};

use byte_io::{Source, Status};
use hart_step::Hart;
use image::Image;
use machine::{Inputs, Machine, see_words};
use mem_flat::FlatStore;
use outcome::{Expect, lines_text};
use program_open::{CommandFault, Input, ProgramForm, open_text};
use sched_run::{Chosen, early_fault, run_choices};
use sched_text::ChoiceFault;
use std::alloc::{AllocError, Allocator};

// The harts' lines and, under a rule, the verdict on them, by which harts were chosen; and the
// status.
fn ends_after<A: Allocator + Copy>(
    alloc: A,
    inputs: &[u32],
    expect: Expect,
    chosen: &Chosen,
    harts: &[Hart],
) -> Result<(String<A>, Status), AllocError>
    ensures { IfOk result (λ answer. (choices : List Choice)
        → ((k : ℕ) → harts_of chosen.now k ≡ is_chosen choices k)
        → shown_with expect.exit (verdict_on expect.rule inputs.now choices (map hart_of harts.now)) (map hart_of harts.now)
        ≡ (string_bytes answer.0, answer.1)) }
{
    let outcome = expect.judge(alloc, inputs, chosen, harts)?;
    let text = lines_text(alloc, outcome.verdict, harts)?;
    let status = expect.status(outcome);
    Ok((text, status))
}

/// The printed result of an image's run under a choice text, and its status, or the text's first
/// fault. Under a rule the verdict follows the harts' lines. The status shows whether the run did
/// as expected. The choices are read from the text one by one, and never held as a list. A text
/// with counts is checked before the run, so that its fault is reported at once.
#[tactic(auto, using(crate::proofs::RunLemmas::text_answered))]
pub fn run_text<A: Allocator + Copy>(
    alloc: A,
    image: &Image<A>,
    inputs: &Inputs,
    expect: Expect,
    text: &[u8],
) -> Result<(String<A>, Status), ChoiceFault>
    ensures shown { IfOk result (λ answer.
        run_after expect inputs.now (with_choices image.now (choices_read (length inputs.now) text.now))
        ≡ Ok (string_bytes answer.0, answer.1)) }
    ensures refused { IfErr result (λ fault. fault ≢ ChoiceFault.Memory
        → choices_read (length inputs.now) text.now ≡ Err fault) }
{
    if let Some(fault) = early_fault(text, inputs.harts()) {
        return Err(fault);
    }
    let mut machine: Machine<FlatStore<A>, A> = match Machine::start(alloc, image, inputs) {
        Ok(machine) => machine,
        Err(AllocError) => return Err(ChoiceFault::Memory),
    };
    let chosen = match run_choices(&mut machine, text, inputs.harts()) {
        Ok(chosen) => chosen,
        Err(why) => return Err(why),
    };
    match ends_after(alloc, inputs.words(), expect, &chosen, machine.ends()) {
        Ok(answer) => Ok(answer),
        Err(AllocError) => Err(ChoiceFault::Memory),
    }
}

/// `run`: reads the program in this form to its end and, if it is valid and the number of inputs
/// is, the choice text to its end; returns how the harts end, and under a rule the verdict. The
/// status shows whether the run did as expected. The choices are read from the text one by one, and
/// never held as a list.
#[tactic(auto, unfolding(crate::specs::Run::run_answer))]
pub fn run_engine<A: Allocator + Copy, P: Source, C: Source>(
    alloc: A,
    form: ProgramForm,
    inputs: &[u32],
    expect: Expect,
    program: &mut P,
    choices: &mut C,
) -> Result<(String<A>, Status), CommandFault>
    requires program_counts { P.failures program.old < 2 ^ 64 - 1 }
    requires choices_count { C.failures choices.old < 2 ^ 64 - 1 }
    // The printed result of the run, and its status.
    ensures done { IfOk result (λ answer.
        IfSome (P.left program.old) (λ p. IfSome (C.left choices.old) (λ c.
        run_answer form inputs.now expect p c ≡ Ok (string_bytes answer.0, answer.1)))) }
    ensures refused { IfErr result (λ fault. IsRefusal fault
        → IfSome (P.left program.old) (λ p. IfSome (C.left choices.old) (λ c.
        run_answer form inputs.now expect p c ≡ Err fault))) }
    // A fault of the program or of the number of inputs is that whatever the choices are.
    ensures of_program { IfErr result (λ fault. IsOfProgram fault
        → IfSome (P.left program.old) (λ p. program_opening form (length inputs.now) p ≡ Err fault)) }
    // A device is named only if it failed.
    ensures read { IfErr result (λ fault. IfNames fault
        (P.failures program.old < P.failures program.new)
        (C.failures choices.old < C.failures choices.new) ⊥ ⊥) }
    // A fault of the program comes before one of the choices' device.
    ensures program_first { result ≡ Err (CommandFault.Read Input.Choices)
        → IfSome (P.left program.old) (λ p. (image : ImageValue) × (program_of form p ≡ Ok image)) }
    // So does the fault of the number of inputs.
    ensures inputs_first { result ≡ Err (CommandFault.Read Input.Choices) → IsStartable inputs.now }
    // For a file that is an object, run by as many harts as it is for, the verdict by its kind's
    // rule is never `broken`: the status is 0, or 3 if each hart must exit and one still runs.
    ensures certified { IfOk result (λ _.
        IfSome (P.left program.old) (λ p. IfSome (C.left choices.old) (λ c.
        IsCertified form p inputs.now expect.rule
        → AnswersKept expect.exit (run_answer form inputs.now expect p c)))) }
    // If there are harts, and each is chosen as often as its object needs at most, the run succeeds
    // with status 0.
    ensures enough { IfSome (P.left program.old) (λ p. IfSome (C.left choices.old) (λ c.
        IsChosenEnough form p inputs.now expect.rule c
        → EndsWell (run_answer form inputs.now expect p c))) }
{
    see_words(inputs);
    let run = match open_text(alloc, form, inputs, program, choices) {
        Ok(run) => run,
        Err(why) => return Err(why),
    };
    match run_text(alloc, &run.image, &run.inputs, expect, &run.text) {
        Ok(answer) => Ok(answer),
        Err(why) => Err(CommandFault::from(why)),
    }
}
