//! Harts that run on threads of their own.
ghost use Rattle.std.specs.Prelude.{◌≡◌, ◌+◌, ◌<◌, ◌≤◌, [], IfOk, length, vec_len};
ghost use Rattle.hart_reservations.specs.Limit.{most_harts as most};
ghost use Rattle.thread_run.specs.Outcome.{IsOutcome};

use crate::fault::{CommitFault, RunFault};
use crate::limits::Limits;
use crate::running::Running;
use crate::spent::Spent;
use crate::terms::Terms;
use crate::worker::work;
use image::Image;
use machine::Inputs;
use std::alloc::Allocator;
use std::marker::Brand;
use std::sync::ledger::{Blank, Share};
use std::sync::{Mutex, Wait};
use std::thread;
use std::thread::{JoinHandle, Threads};
use thread_book::Book;
use thread_gate::{Gate, Plan};

/// The result of a run of threads.
#[derive(Drop)]
pub struct Outcome<A: Allocator> {
    /// The book with the history of all harts.
    pub book: Book<A>,
}

/// Runs a program with a hart for each input. Each hart has a thread of its own, and runs until it
/// has stopped, its budget is used up, or all harts together have made as many choices as the total
/// allows, if there is one. Local steps of several harts run at the same time; each other step is
/// taken under the book's lock, after the gate has returned. Fails if the host refuses a thread or
/// is out of memory.
pub fn run_threads<A: Allocator + Copy + Send + Sync, G: Gate + Sync, R: Threads + Wait + Sync>(
    rt: &R,
    alloc: A,
    image: Image<A>,
    inputs: Inputs,
    limits: Limits,
    plan: Plan<A>,
    gate: &G,
) -> Result<Outcome<A>, RunFault>
    ensures ended { IfOk result (λ outcome.
        IsOutcome image inputs limits.budget limits.total plan.keys outcome.book) }
{
    let harts = inputs.harts();
    let Ok(book) = Book::new(alloc, image, inputs) else {
        return Err(RunFault::Memory);
    };
    if limits.allow_none() {
        return Ok(Outcome { book });
    }
    let blank = Blank::new(harts as u64);
    let book = run_book::<Brand, A, G, R>(rt, alloc, blank, book, limits, plan, gate)?;
    Ok(Outcome { book })
}

// Runs the harts of a book with an empty history, and limits above 0.
fn run_book<
    T: Terms + Send + Sync,
    A: Allocator + Copy + Send + Sync,
    G: Gate + Sync,
    R: Threads + Wait + Sync,
>(
    rt: &R,
    alloc: A,
    blank: Blank,
    book: Book<A>,
    limits: Limits,
    plan: Plan<A>,
    gate: &G,
) -> Result<Book<A>, RunFault>
    requires name { blank.name ≡ T.name }
    requires parts { (blank.parts ≡ T.parts) × (blank.parts ≡ length T.inputs) }
    requires few { (0 < length T.inputs) × (length T.inputs ≤ most) }
    requires book { book ≡ record { image = T.image; inputs = T.inputs; history = [] } }
    requires budget { (limits.budget ≡ T.budget) × (0 < T.budget) }
    requires total { limits.total ≡ T.total }
    requires plan { plan.keys ≡ T.plan }
    ensures ended { IfOk result (λ b. IsOutcome T.image T.inputs T.budget T.total T.plan b) }
{
    let harts = book.inputs().harts();
    let Ok(owned) = vec![in alloc; 0u32; harts as usize] else {
        return Err(RunFault::Memory);
    };
    let (mut tickets, mut all) = blank.open::<T>();
    tickets.add(&mut all, harts as u64);
    let running = Mutex::new(Running::new(book, owned, plan, limits, tickets));
    let mut all = run_all(rt, alloc, &running, gate, limits.budget, harts, all)?;
    Ok(running.into_inner().finish(&mut all))
}

// Starts a worker for each hart, and joins them all. A scope also waits for its threads when it is
// left early.
fn run_all<
    T: Terms + Send + Sync,
    A: Allocator + Copy + Send + Sync,
    G: Gate + Sync,
    R: Threads + Wait + Sync,
>(
    rt: &R,
    alloc: A,
    running: &Mutex<Running<T, A>>,
    gate: &G,
    budget: u32,
    count: u32,
    all: Share<T>,
) -> Result<Share<T>, RunFault>
    requires parts { (all.parts ≡ T.parts) × (T.parts ≡ count) × (0 < count) × (count ≤ most) }
    requires amount { all.amount ≡ count }
    ensures spent { IfOk result (λ s. (s.parts ≡ T.parts) × (s.amount ≡ 0)) }
{
    thread::scope(
        thread::scope_env(),
        rt,
        |scope| -> Result<Share<T>, RunFault>
            requires parts { (all.parts ≡ T.parts) × (T.parts ≡ count) × (0 < count) × (count ≤ most) }
            requires amount { all.amount ≡ count }
            ensures spent { IfOk result (λ s. (s.parts ≡ T.parts) × (s.amount ≡ 0)) }
        {
            let mut all = all;
            let mut workers = Vec::new(alloc);
            'harts: for hart in 0..count {
                let ticket = all.split_off(1, 1);
                let worker = move || -> Result<Spent<T>, CommitFault>
                    requires { (ticket.parts ≡ 1) × (ticket.amount ≡ 1) }
                { work(rt, running, gate, budget, hart, ticket) };
                let Ok(thread) = scope.spawn(worker) else {
                    return Err(RunFault::StartRefused);
                };
                if workers.push(thread).is_err() {
                    return Err(RunFault::Memory);
                }
            }
            match join_all(rt, workers, all) {
                Ok(all) => Ok(all),
                Err(CommitFault::Stale) => Err(RunFault::Stale),
                Err(CommitFault::Memory) => Err(RunFault::Memory),
            }
        },
    )
}

// Joins the workers, and adds their parts of the ledger to the rest.
fn join_all<T: Terms, A: Allocator, R: Threads>(
    rt: &R,
    workers: Vec<JoinHandle<Result<Spent<T>, CommitFault>>, A>,
    rest: Share<T>,
) -> Result<Share<T>, CommitFault>
    requires parts { rest.parts + vec_len workers ≡ T.parts }
    requires amount { rest.amount ≡ 0 }
    ensures { IfOk result (λ s. (s.parts ≡ T.parts) × (s.amount ≡ 0)) }
{
    let mut all = rest;
    let mut workers = workers;
    'workers: while let Some(worker) = workers.pop() {
        let Spent { share } = worker.join(rt)?;
        all.merge(share);
    }
    Ok(all)
}
