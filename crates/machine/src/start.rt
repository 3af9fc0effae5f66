//! The start of a machine.
ghost use Rattle.std.specs.Prelude.{◌≡◌, ◌≤◌, length, map, IfOk, vec_len};
ghost use Rattle.hart_step.specs.Hart.{hart_of};
ghost use Rattle.machine.specs.Machine.{world};
ghost use Rattle.machine.specs.Start.{first_hart, first_harts, started};
ghost use Rattle.hart_reservations.specs.Limit.{most_harts as most};

use crate::inputs::Inputs;
use crate::machine::Machine;
use hart_reservations::Reserve;
use hart_step::{Hart, HartState};
use image::Image;
use mem_store::FromImage;
use std::alloc::{AllocError, Allocator};

// A hart at the entry: `a0` is its number, `a1` its input, `a2` the number of harts; all other
// registers are 0.
fn start_hart(entry: u32, number: u32, input: u32, harts: u32) -> Hart
    ensures { hart_of result ≡ first_hart entry harts number input }
{
    let mut registers = [0; 32];
    registers[10] = number;
    registers[11] = input;
    registers[12] = harts;
    Hart {
        registers,
        pc: entry,
        state: HartState::Running,
    }
}

fn start_harts<A: Allocator>(
    alloc: A,
    entry: u32,
    inputs: &[u32],
) -> Result<Vec<Hart, A>, AllocError>
    requires { length inputs.now ≤ most }
    ensures items { IfOk result (λ harts. map hart_of harts.items
        ≡ first_harts entry (length inputs.now) 0 inputs.now) }
    ensures len { IfOk result (λ harts. vec_len harts ≡ length inputs.now) }
{
    let count = inputs.len() as u32;
    let mut harts = Vec::with_capacity(alloc, inputs.len())?;
    for (number, input) in inputs.iter().enumerate() {
        harts.push(start_hart(entry, number as u32, *input, count))?;
    }
    Ok(harts)
}

impl<S: FromImage<A>, A: Allocator + Copy> Machine<S, A> {
    /// A machine at the start of a program, with a hart for each input. Fails when out of memory.
    #[tactic(auto, unfolding(crate::specs::Start::started))]
    pub fn start<B: Allocator>(
        alloc: A,
        image: &Image<B>,
        inputs: &Inputs,
    ) -> Result<Self, AllocError>
        ensures begun { IfOk result (λ m. world S.memory m ≡ started image.now inputs.now) }
        ensures harts { IfOk result (λ m. length (world S.memory m).harts ≡ length inputs.now) }
    {
        Ok(Machine {
            harts: start_harts(alloc, image.entry(), inputs.words())?,
            store: S::from_image(alloc, image)?,
            reserve: Reserve::new(),
        })
    }

    /// A copy of the machine; later steps of one do not change the other. Fails when out of memory.
    pub fn copy(&self, alloc: A) -> Result<Self, AllocError>
        ensures { IfOk result (λ m. world S.memory m ≡ world S.memory self.now) }
    {
        Ok(Machine {
            harts: Vec::from_slice(alloc, &self.harts)?,
            store: self.store.copy(alloc)?,
            reserve: self.reserve,
        })
    }
}
