//! Opens a replay: the program, the number of inputs and the history text are checked once, in this
//! order.

ghost use Rattle.std.specs.Prelude.{◌≡◌, ◌≢◌, ◌^◌, ◌-◌, ◌<◌, Ok, Err, IfOk, IfErr, IfSome, length};
ghost use Rattle.std.specs.List.{All};
ghost use Rattle.image.specs.Image.{ImageValue};
ghost use Rattle.machine.specs.Start.{IsStartable};
ghost use Rattle.program_open.specs.Opening.{program_opening};
ghost use Rattle.program_open.specs.Program.{program_of};
ghost use Rattle.program_open.specs.CommandFaults.{IfNames, IsOfProgram, IsRefusal};
ghost use Rattle.cmd_replay.specs.Replay.{fault_of_history, replay_opening};

use byte_io::{ReadFault, Source, read_all};
use history::{Entry, HistoryFault, read_history};
use image::Image;
use machine::Inputs;
use program_open::{CommandFault, Input, ProgramForm, read_image};
use std::alloc::Allocator;

/// An opened replay.
#[derive(Drop)]
pub struct OpenReplay<A: Allocator> {
    /// The program's image.
    pub image: Image<A>,
    /// The harts' inputs.
    pub inputs: Inputs,
    /// The history, each entry of a hart that exists.
    pub history: Vec<Entry, A>,
}

/// Reads an ELF file to its end, checks the number of inputs, and reads the history text to its
/// end. The first fault is returned, and what comes after it is not read.
#[tactic(auto, unfolding(crate::specs::Replay::replay_opening, program_open::specs::Opening::program_opening), using(program_open::proofs::FaultLemmas::of_program))]
pub fn open_replay<A: Allocator + Copy, P: Source, H: Source>(
    alloc: A,
    inputs: &[u32],
    program: &mut P,
    history: &mut H,
) -> Result<OpenReplay<A>, CommandFault>
    requires program_counts { P.failures program.old < 2 ^ 64 - 1 }
    requires history_counts { H.failures history.old < 2 ^ 64 - 1 }
    ensures inputs { IfOk result (λ run. (run.inputs ≡ inputs.now) × IsStartable inputs.now) }
    ensures within { IfOk result (λ run. All (λ e. e.hart < length inputs.now) run.history.items) }
    ensures image { IfOk result (λ run.
        IfSome (P.left program.old) (λ p. program_of ProgramForm.Elf p ≡ Ok run.image)) }
    ensures opened { IfOk result (λ run.
        IfSome (P.left program.old) (λ p. IfSome (H.left history.old) (λ h.
        replay_opening (length inputs.now) p h ≡ Ok (run.image, run.history.items)))) }
    ensures refused { IfErr result (λ fault. IsRefusal fault
        → IfSome (P.left program.old) (λ p. IfSome (H.left history.old) (λ h.
        replay_opening (length inputs.now) p h ≡ Err fault))) }
    // A fault of the program or of the number of inputs is that whatever the history is.
    ensures of_program { IfErr result (λ fault. IsOfProgram fault
        → IfSome (P.left program.old) (λ p. program_opening ProgramForm.Elf (length inputs.now) p ≡ Err fault)) }
    // A device is named only if it failed.
    ensures read { IfErr result (λ fault. IfNames fault
        (P.failures program.old < P.failures program.new) ⊥
        (H.failures history.old < H.failures history.new) ⊥) }
    // A fault of the program or of the number of inputs comes before one of the history's device.
    ensures program_first { result ≡ Err (CommandFault.Read Input.History)
        → IfSome (P.left program.old) (λ p. (image : ImageValue) × (program_of ProgramForm.Elf p ≡ Ok image)) }
    ensures inputs_first { result ≡ Err (CommandFault.Read Input.History) → IsStartable inputs.now }
{
    let image = read_image(alloc, ProgramForm::Elf, program)?;
    let inputs = Inputs::new(inputs)?;
    let text = match read_all(alloc, history) {
        Ok(bytes) => bytes,
        Err(ReadFault::Device) => return Err(CommandFault::Read(Input::History)),
        Err(ReadFault::Memory) => return Err(CommandFault::Memory),
    };
    match read_history(alloc, &text, inputs.harts()) {
        Ok(history) => Ok(OpenReplay {
            image,
            inputs,
            history,
        }),
        Err(fault) => Err(history_fault(fault)),
    }
}

// A fault of the history text as one of the command.
fn history_fault(fault: HistoryFault) -> CommandFault
    ensures { result ≡ fault_of_history fault }
{
    match fault {
        HistoryFault::BadEntry(offset) => CommandFault::BadEntry(offset),
        HistoryFault::NoHart(offset) => CommandFault::NoHartOfEntry(offset),
        HistoryFault::Memory => CommandFault::Memory,
    }
}
