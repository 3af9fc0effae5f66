//! A hart as its program begins.
ghost use Rattle.std.specs.Prelude.{◌≡◌};
ghost use Rattle.hart_step.specs.Hart.{hart_of};
ghost use Rattle.machine.specs.Start.{first_hart};

use hart_step::{Hart, HartState};

/// A hart at the entry: `a0` is its number, `a1` its input, `a2` the number of harts; all other
/// registers are 0.
pub fn first_hart(entry: u32, number: u32, input: u32, harts: u32) -> Hart
    ensures { hart_of result ≡ first_hart entry harts number input }
{
    let mut registers = [0; 32];
    registers[10] = number;
    registers[11] = input;
    registers[12] = harts;
    Hart {
        registers,
        pc: entry,
        state: HartState::Running,
    }
}
