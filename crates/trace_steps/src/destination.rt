//! The register that gets an instruction's result.
ghost use Rattle.std.specs.Prelude.{◌≡◌, option_and_then, option_map};
ghost use Rattle.hart_step.specs.Hart.{hart_of};
ghost use Rattle.trace_steps.specs.Destination.{destination, unless_zero};
ghost use Rattle.trace_steps.specs.Told.{written_in, written_of};

use crate::told::Written;
use hart_step::{Hart, HartState};
use isa_table::{Instr, Reg};

// A register, but `x0`, which ignores what is written to it.
fn unless_zero(register: Reg) -> Option<Reg>
    ensures { result ≡ unless_zero register }
{
    if register.number() == 0 {
        None
    } else {
        Some(register)
    }
}

// The register that an instruction writes, if it writes one.
fn destination(instr: Instr) -> Option<Reg>
    ensures { result ≡ destination instr }
{
    match instr {
        Instr::Lui { rd, .. }
        | Instr::Auipc { rd, .. }
        | Instr::Jal { rd, .. }
        | Instr::Jalr { rd, .. }
        | Instr::Load { rd, .. }
        | Instr::Immediate { rd, .. }
        | Instr::Shift { rd, .. }
        | Instr::Register { rd, .. }
        | Instr::LoadReserved { rd, .. }
        | Instr::StoreConditional { rd, .. }
        | Instr::Amo { rd, .. } => unless_zero(rd),
        Instr::Branch { .. }
        | Instr::Store { .. }
        | Instr::Fence { .. }
        | Instr::Ecall
        | Instr::Ebreak => None,
    }
}

// The register that an instruction writes, if there is an instruction.
fn destination_if(instr: Option<Instr>) -> Option<Reg>
    ensures { result ≡ option_and_then destination instr }
{
    destination(instr?)
}

// A register, with the value that a hart has in it.
fn written_of(hart: &Hart, register: Reg) -> Written
    ensures { result ≡ written_of (hart_of hart.now) register }
{
    Written {
        register,
        value: hart.registers[register.number() as usize],
    }
}

/// The register that an instruction wrote of a hart, as it is after the step; a hart that has
/// faulted wrote none.
pub fn written(hart: &Hart, instr: Option<Instr>) -> Option<Written>
    ensures { result ≡ option_map (written_of (hart_of hart.now)) (written_in hart.now.state instr) }
{
    match hart.state {
        HartState::Running | HartState::Exited(_) => {
            let register = destination_if(instr)?;
            Some(written_of(hart, register))
        }
        HartState::Faulted(_) => None,
    }
}
