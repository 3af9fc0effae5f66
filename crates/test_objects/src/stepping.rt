//! Machines of images, and steps of one hart.
use image::Image;
use machine::{Choice, Inputs, Machine};
use mem_flat::FlatStore;
use std::alloc::{AllocError, Global};

/// A machine over a plain memory.
pub(crate) type PlainMachine = Machine<FlatStore<Global>, Global>;

/// A machine of an image and inputs, before any step.
pub(crate) fn started(
    alloc: Global,
    image: &Image<Global>,
    inputs: &[u32],
) -> Result<PlainMachine, AllocError> {
    let Ok(inputs) = Inputs::new(inputs) else {
        return Err(AllocError);
    };
    Machine::start(alloc, image, &inputs)
}

/// Takes a hart's step, if there is such a hart.
pub(crate) fn take_step(machine: &mut PlainMachine, hart: u32) -> Result<(), AllocError> {
    if (hart as usize) < machine.harts() {
        machine.step(Choice {
            hart,
            refuse: false,
        })?;
    }
    Ok(())
}

/// Takes so many steps of a hart.
pub(crate) fn take_steps(
    machine: &mut PlainMachine,
    hart: u32,
    steps: u32,
) -> Result<(), AllocError> {
    for _ in 0..steps {
        take_step(machine, hart)?;
    }
    Ok(())
}
