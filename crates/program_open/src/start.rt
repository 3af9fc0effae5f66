//! Opens a program alone: its bytes and the number of inputs are checked, in this order.

ghost use Rattle.std.specs.Prelude.{◌≡◌, ◌^◌, ◌-◌, ◌<◌, Ok, Err, IfOk, IfErr, IfSome, length};
ghost use Rattle.machine.specs.Start.{IsStartable};
ghost use Rattle.program_open.specs.Opening.{program_opening};
ghost use Rattle.program_open.specs.Program.{program_of};
ghost use Rattle.program_open.specs.CommandFaults.{IfNames, IsOfProgram, IsRefusal};

use crate::command_fault::CommandFault;
use crate::program::{ProgramForm, read_image};
use byte_io::Source;
use image::Image;
use machine::Inputs;
use std::alloc::Allocator;

/// An opened program.
#[derive(Drop)]
pub struct OpenProgram<A: Allocator> {
    /// The program's image.
    pub image: Image<A>,
    /// The harts' inputs.
    pub inputs: Inputs,
}

/// Reads a program in this form to its end, and checks the number of inputs. The first fault is
/// returned.
#[tactic(auto, unfolding(crate::specs::Opening::program_opening), using(crate::proofs::FaultLemmas::of_program))]
pub fn open_program<A: Allocator + Copy, P: Source>(
    alloc: A,
    form: ProgramForm,
    inputs: &[u32],
    program: &mut P,
) -> Result<OpenProgram<A>, CommandFault>
    requires { P.failures program.old < 2 ^ 64 - 1 }
    ensures inputs { IfOk result (λ run. (run.inputs ≡ inputs.now) × IsStartable inputs.now) }
    ensures image { IfOk result (λ run.
        IfSome (P.left program.old) (λ p. program_of form p ≡ Ok run.image)) }
    ensures opened { IfOk result (λ run.
        IfSome (P.left program.old) (λ p. program_opening form (length inputs.now) p ≡ Ok run.image)) }
    ensures refused { IfErr result (λ fault. IsRefusal fault
        → IfSome (P.left program.old) (λ p. program_opening form (length inputs.now) p ≡ Err fault)) }
    ensures of_program { IfErr result (λ fault. IsOfProgram fault
        → IfSome (P.left program.old) (λ p. program_opening form (length inputs.now) p ≡ Err fault)) }
    // The device is named only if it failed, and no other is.
    ensures read { IfErr result (λ fault. IfNames fault
        (P.failures program.old < P.failures program.new) ⊥ ⊥ ⊥) }
{
    let image = read_image(alloc, form, program)?;
    let inputs = Inputs::new(inputs)?;
    Ok(OpenProgram { image, inputs })
}
