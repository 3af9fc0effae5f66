//! Runs of threads for tests.
use machine::Inputs;
use std::alloc::Allocator;
use std::sync::Wait;
use std::thread::Threads;
use test_images::{Program, plan_of, program_image};
use thread_book::Book;
use thread_gate::Gate;
use thread_run::{Limits, RunFault, run_threads};

/// What is run: a program with a hart for each input, how often each hart and all together are chosen
/// at most, and the pairs of its plan.
#[derive(Clone, Copy)]
pub struct Order<'a> {
    pub program: Program,
    pub inputs: &'a [u32],
    pub budget: u32,
    pub total: Option<u32>,
    pub pairs: &'a [(u32, u32)],
}

impl<'a> Order<'a> {
    // How many choices there are at most.
    fn limits(&self) -> Limits {
        Limits {
            budget: self.budget,
            total: self.total,
        }
    }
}

/// The book of a run.
pub fn run<A: Allocator + Copy + Send + Sync, G: Gate + Sync, R: Threads + Wait + Sync>(
    rt: &R,
    alloc: A,
    order: &Order,
    gate: &G,
) -> Result<Book<A>, RunFault> {
    let (Ok(image), Ok(inputs), Ok(plan)) = (
        program_image(alloc, order.program),
        Inputs::new(order.inputs),
        plan_of(alloc, order.pairs),
    ) else {
        return Err(RunFault::Memory);
    };
    let outcome = run_threads(rt, alloc, image, inputs, order.limits(), plan, gate)?;
    Ok(outcome.book)
}
