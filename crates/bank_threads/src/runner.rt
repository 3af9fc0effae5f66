//! Runs harts on threads of their own.
ghost use Rattle.std.specs.Prelude.{◌≡◌, ◌<◌, IfOk, length};
ghost use Rattle.bank_threads.specs.Banked.{IsBanked};

use crate::fault::RunFault;
use crate::whole::are_of_a_run;
use bank_hart_log::HartLog;
use bank_memory::Bank;
use bank_worker::{Job, StepFault, work};
use image::Image;
use machine::Inputs;
use std::alloc::{AllocError, Allocator};
use std::sync::{Mutex, Wait};
use std::thread;
use std::thread::{JoinHandle, Threads};
use thread_gate::{Gate, Plan};

/// The result of a run of threads over banks.
#[derive(Drop)]
pub struct Banked<'a, A: Allocator> {
    /// The log of each hart.
    pub logs: Vec<HartLog<'a, A>, A>,
    /// The banks.
    pub banks: Vec<Bank<'a, A>, A>,
}

/// Runs a program with a hart for each input, each hart on a thread of its own, until it has
/// stopped or was chosen `budget` times. Local steps of harts run in parallel; each other step runs
/// under the locks of the banks that it touches. Fails if the host refuses a thread or memory, and
/// if stamps are used up.
pub fn run_banked<'a, A: Allocator + Copy + Send + Sync, G: Gate + Sync, R: Threads + Wait + Sync>(
    rt: &R,
    alloc: A,
    image: &'a Image<A>,
    inputs: &'a Inputs,
    budget: u32,
    plan: &'a Plan<A>,
    gate: &G,
) -> Result<Banked<'a, A>, RunFault>
    ensures banked { IfOk result (λ b.
        IsBanked image.now inputs.now budget plan.now.keys b.logs.items b.banks.items) }
{
    let words = inputs.words();
    let Ok(job) = Job::new(alloc, image, words, budget, plan) else {
        return Err(RunFault::Memory);
    };
    let logs = match run_all(rt, alloc, &job, gate, inputs.harts()) {
        Ok(logs) => logs,
        Err(StepFault::StartRefused) => return Err(RunFault::StartRefused),
        Err(StepFault::StampsExhausted) => return Err(RunFault::StampsExhausted),
        Err(StepFault::OtherBank) => return Err(RunFault::Stale),
        Err(StepFault::Memory) => return Err(RunFault::Memory),
    };
    let Ok(banks) = unlocked(alloc, job.into_banks()) else {
        return Err(RunFault::Memory);
    };
    let Ok(all) = are_of_a_run(rt, alloc, &logs, &banks, image, words, plan, budget) else {
        return Err(RunFault::Memory);
    };
    if !all {
        return Err(RunFault::Stale);
    }
    Ok(Banked { logs, banks })
}

// The banks, without their locks.
fn unlocked<'a, A: Allocator>(
    alloc: A,
    banks: Vec<Mutex<Bank<'a, A>>, A>,
) -> Result<Vec<Bank<'a, A>, A>, AllocError> {
    let mut out = Vec::new(alloc);
    'banks: for bank in banks {
        if out.push(bank.into_inner()).is_err() {
            return Err(AllocError);
        }
    }
    Ok(out)
}

// Starts a worker for each hart, the last one first, and joins them all. A scope waits for its
// threads even if it is left early.
fn run_all<'a, A: Allocator + Copy + Send + Sync, G: Gate + Sync, R: Threads + Wait + Sync>(
    rt: &R,
    alloc: A,
    job: &Job<'a, A>,
    gate: &G,
    count: u32,
) -> Result<Vec<HartLog<'a, A>, A>, StepFault>
    requires { count ≡ length job.now.inputs.now }
{
    thread::scope(
        thread::scope_env(),
        rt,
        |scope| -> Result<Vec<HartLog<A>, A>, StepFault>
            requires { count ≡ length job.now.inputs.now }
        {
            let mut workers = Vec::new(alloc);
            'harts: for started in 0..count {
                let hart = count - 1 - started;
                let worker = move || -> Result<HartLog<A>, StepFault>
                    requires { hart < length job.now.inputs.now }
                { work(rt, alloc, job, gate, hart) };
                let Ok(thread) = scope.spawn(worker) else {
                    return Err(StepFault::StartRefused);
                };
                if workers.push(thread).is_err() {
                    return Err(StepFault::Memory);
                }
            }
            join_all(rt, alloc, workers)
        },
    )
}

// Joins workers, the last one first.
fn join_all<'a, A: Allocator, R: Threads>(
    rt: &R,
    alloc: A,
    workers: Vec<JoinHandle<Result<HartLog<'a, A>, StepFault>>, A>,
) -> Result<Vec<HartLog<'a, A>, A>, StepFault> {
    let mut logs = Vec::new(alloc);
    let mut workers = workers;
    'workers: while let Some(worker) = workers.pop() {
        let log = worker.join(rt)?;
        if logs.push(log).is_err() {
            return Err(StepFault::Memory);
        }
    }
    Ok(logs)
}
