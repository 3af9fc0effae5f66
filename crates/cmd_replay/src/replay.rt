//! `replay`: from a program, inputs and a history to the harts' ends and the verdict on them.

ghost use Rattle.std.specs.Prelude.{◌≡◌, ◌≢◌, ◌^◌, ◌-◌, ◌<◌, Ok, Err, IfOk, IfErr, IfSome, length, string_bytes};
ghost use Rattle.std.specs.List.{All};
ghost use Rattle.cmd_run.specs.Certified.{AnswersKept, IsCertified};
ghost use Rattle.cmd_run.specs.Run.{shown, world_after};
ghost use Rattle.history.specs.History.{expanded};
ghost use Rattle.image.specs.Image.{ImageValue};
ghost use Rattle.machine.specs.Start.{IsStartable};
ghost use Rattle.program_open.specs.Opening.{program_opening};
ghost use Rattle.program_open.specs.Program.{program_of};
ghost use Rattle.program_open.specs.CommandFaults.{IfNames, IsOfProgram, IsRefusal};
ghost use Rattle.cmd_replay.specs.Replay.{replay_answer};

use crate::opening::open_replay;
use crate::shown::shown_after;
use byte_io::{Source, Status};
use cmd_run::Expect;
use history::{Entry, replay_history};
use image::Image;
use machine::{Inputs, Machine, see_words};
use mem_flat::FlatStore;
use program_open::{CommandFault, Input, ProgramForm};
use std::alloc::{AllocError, Allocator};

// The printed result of a history's replay on an image, and its status. The history is replayed
// entry by entry.
fn replay_image<A: Allocator + Copy>(
    alloc: A,
    image: &Image<A>,
    inputs: &Inputs,
    expect: Expect,
    history: &[Entry],
) -> Result<(String<A>, Status), AllocError>
    requires { All (λ e. e.hart < length inputs.now) history.now }
    ensures { IfOk result (λ answer.
        shown expect inputs.now (expanded history.now) (world_after image.now inputs.now (expanded history.now))
        ≡ (string_bytes answer.0, answer.1)) }
{
    let mut machine: Machine<FlatStore<A>, A> = Machine::start(alloc, image, inputs)?;
    replay_history(&mut machine, history);
    shown_after(alloc, inputs.words(), expect, history, machine.ends())
}

/// `replay`: reads the program to its end and, if it is valid and the number of inputs is, the
/// history text to its end; returns how the harts end, and under a rule the verdict.
#[tactic(auto, unfolding(crate::specs::Replay::replay_answer))]
pub fn replay_engine<A: Allocator + Copy, P: Source, H: Source>(
    alloc: A,
    inputs: &[u32],
    expect: Expect,
    program: &mut P,
    history: &mut H,
) -> Result<(String<A>, Status), CommandFault>
    requires program_counts { P.failures program.old < 2 ^ 64 - 1 }
    requires history_counts { H.failures history.old < 2 ^ 64 - 1 }
    // The printed result of the replay, and its status.
    ensures done { IfOk result (λ answer.
        IfSome (P.left program.old) (λ p. IfSome (H.left history.old) (λ h.
        replay_answer inputs.now expect p h ≡ Ok (string_bytes answer.0, answer.1)))) }
    ensures refused { IfErr result (λ fault. IsRefusal fault
        → IfSome (P.left program.old) (λ p. IfSome (H.left history.old) (λ h.
        replay_answer inputs.now expect p h ≡ Err fault))) }
    // A fault of the program or of the number of inputs is that whatever the history is.
    ensures of_program { IfErr result (λ fault. IsOfProgram fault
        → IfSome (P.left program.old) (λ p. program_opening ProgramForm.Elf (length inputs.now) p ≡ Err fault)) }
    // A device is named only if it failed.
    ensures read { IfErr result (λ fault. IfNames fault
        (P.failures program.old < P.failures program.new) ⊥
        (H.failures history.old < H.failures history.new) ⊥) }
    // A fault of the program or of the number of inputs comes before one of the history's device.
    ensures program_first { result ≡ Err (CommandFault.Read Input.History)
        → IfSome (P.left program.old) (λ p. (image : ImageValue) × (program_of ProgramForm.Elf p ≡ Ok image)) }
    ensures inputs_first { result ≡ Err (CommandFault.Read Input.History) → IsStartable inputs.now }
    // For a file that is an object, run by as many harts as it is for, the verdict by its kind's
    // rule is never `broken`.
    ensures certified { IfOk result (λ _.
        IfSome (P.left program.old) (λ p. IfSome (H.left history.old) (λ h.
        IsCertified ProgramForm.Elf p inputs.now expect.rule
        → AnswersKept expect.exit (replay_answer inputs.now expect p h)))) }
{
    see_words(inputs);
    let run = match open_replay(alloc, inputs, program, history) {
        Ok(run) => run,
        Err(fault) => return Err(fault),
    };
    match replay_image(alloc, &run.image, &run.inputs, expect, &run.history) {
        Ok(answer) => Ok(answer),
        Err(AllocError) => Err(CommandFault::Memory),
    }
}
