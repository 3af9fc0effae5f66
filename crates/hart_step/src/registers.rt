//! The registers of a hart, and its pc.
ghost use Rattle.std.specs.Prelude.{◌≡◌, ◌+◌, ◌<◌, ℕ};
ghost use Rattle.hart_step.specs.Hart.{hart_of, registers_of, put};
ghost use Rattle.hart_step.specs.Values.{wrap};
ghost use Rattle.hart_step.specs.declared.hart.HartState.TheVariants.{Faulted};

use crate::hart::{Cause, Hart, HartState};
use isa_table::fields::Reg;

/// A register's value.
pub fn get(hart: &Hart, register: Reg) -> u32
    ensures { result ≡ registers_of hart.now.registers register }
{
    hart.registers[register.number() as usize]
}

// Sets a register; a write to `x0` is ignored.
#[tactic(auto, using(crate::proofs::HartLemmas::zero_written))]
fn set(hart: &mut Hart, register: Reg, value: u32)
    ensures registers { registers_of hart.new.registers
        ≡ put (registers_of hart.old.registers) register value }
    ensures pc { hart.new.pc ≡ hart.old.pc }
    ensures state { hart.new.state ≡ hart.old.state }
{
    if register.number() != 0 {
        hart.registers[register.number() as usize] = value;
    }
}

/// Sets a register, and pc to an address.
pub fn give_and_go(hart: &mut Hart, register: Reg, value: u32, pc: u32)
    ensures { hart_of hart.new ≡ record (hart_of hart.old) {
      registers = put (registers_of hart.old.registers) register value;
      pc = pc;
    } }
{
    set(hart, register, value);
    hart.pc = pc;
}

/// Sets a register, and pc to the next instruction.
pub fn give(hart: &mut Hart, register: Reg, value: u32)
    ensures { hart_of hart.new ≡ record (hart_of hart.old) {
      registers = put (registers_of hart.old.registers) register value;
      pc = wrap (hart.old.pc + 4);
    } }
{
    let next = hart.pc.wrapping_add(4);
    give_and_go(hart, register, value, next);
}

/// Sets pc to the next instruction.
pub fn advance(hart: &mut Hart)
    ensures { hart_of hart.new ≡ record (hart_of hart.old) { pc = wrap (hart.old.pc + 4) } }
{
    hart.pc = hart.pc.wrapping_add(4);
}

/// Stops the hart at its instruction.
pub fn fault(hart: &mut Hart, cause: Cause)
    ensures { hart_of hart.new ≡ record (hart_of hart.old) { state = Faulted cause } }
{
    hart.state = HartState::Faulted(cause);
}
