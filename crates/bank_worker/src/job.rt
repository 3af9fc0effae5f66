//! The shared state of a run's workers.
ghost use Rattle.std.specs.Prelude.{◌≡◌, ◌≤◌, IfOk, length, vec_len};
ghost use Rattle.mem_store.specs.Image.{image_memory, segments_memory};
ghost use Rattle.hart_reservations.specs.Limit.{most_harts};
ghost use Rattle.hart_local.specs.CodeMemory.{code_in};
ghost use Rattle.bank_laws.specs.Merged.{most_banks};

use bank_memory::{BANKS, Bank};
use bank_step::InstrTable;
use hart_local::Code;
use image::Image;
use std::alloc::{AllocError, Allocator};
use std::sync::Mutex;
use thread_gate::Plan;

/// The program, the run's inputs and limits, and its banks, each under a lock of its own.
#[derive(Drop)]
pub struct Job<'a, A: Allocator> {
    pub(crate) image: &'a Image<A>,
    pub(crate) inputs: &'a [u32],
    pub(crate) code: Code<A>,
    pub(crate) instrs: InstrTable<'a, A>,
    pub(crate) budget: u32,
    pub(crate) plan: &'a Plan<A>,
    banks: Vec<Mutex<Bank<'a, A>>, A>,
    ghost sixteen: { vec_len banks ≡ 16 },
    ghost few: { length inputs.now ≤ 32 },
    ghost its_code: { segments_memory code ≡ code_in (image_memory image.now) },
    ghost its_instrs: { instrs ≡ image.now },
}

impl<'a, A: Allocator + Copy> Job<'a, A> {
    /// A run before its first step.
    pub fn new(
        alloc: A,
        image: &'a Image<A>,
        inputs: &'a [u32],
        budget: u32,
        plan: &'a Plan<A>,
    ) -> Result<Job<'a, A>, AllocError>
        requires { length inputs.now ≤ most_harts }
        ensures program { IfOk result (λ job. (job.image.now ≡ image.now) × (job.inputs.now ≡ inputs.now)) }
        ensures limits { IfOk result (λ job. (job.budget ≡ budget) × (job.plan.now ≡ plan.now)) }
    {
        let code = Code::new(alloc, image)?;
        let instrs = InstrTable::new(alloc, image)?;
        let mut banks = Vec::with_capacity(alloc, BANKS as usize)?;
        'banks: for number in 0..BANKS {
            let bank = Bank::new(alloc, image, inputs, number);
            if banks.push(Mutex::new(bank)).is_err() {
                return Err(AllocError);
            }
        }
        Ok(Job {
            image,
            inputs,
            code,
            instrs,
            budget,
            plan,
            banks,
        })
    }

    /// The lock of each bank, in the order of the banks.
    pub fn banks(&self) -> &[Mutex<Bank<'a, A>>]
        ensures { length result.now ≡ 16 }
    {
        &self.banks
    }

    /// The locks, after the harts' threads have ended.
    pub fn into_banks(self) -> Vec<Mutex<Bank<'a, A>>, A>
        ensures same { result ≡ self.entry.banks }
        ensures sixteen { vec_len result ≡ 16 }
    {
        let Job { banks, .. } = self;
        banks
    }
}
