//! The thread of one hart.
ghost use Rattle.std.specs.Prelude.{◌≡◌, ◌+◌, ◌^◌, ◌<◌, IfOk, length};
ghost use Rattle.bank_laws.specs.Order.{Rises, Earlier};
ghost use Rattle.bank_worker.specs.Worked.{next_segment, AddsStep, LogHasEnded, LogIsFlagged};

use crate::fault::StepFault;
use crate::job::Job;
use crate::step::{NextSegment, Walked, step, step_to_word};
use bank_hart_log::{Ahead, AheadTouch, HartLog, Slot};
use std::alloc::Allocator;
use std::sync::Wait;
use thread_gate::{Gate, Spinning, is_planned, is_stopped};

// The segment of a log's hart that comes next, with `local` local steps, after `made` choices.
fn next_segment<A: Allocator>(job: &Job<A>, log: &HartLog<A>, made: u32, local: u32) -> NextSegment
    requires { made + local < 2 ^ 32 }
    ensures { result ≡ next_segment log.now job.now.plan.now.keys made local }
{
    let hart = log.number();
    NextSegment {
        hart,
        local,
        refuse: is_planned(job.plan, hart, made + local),
        last_stamp: log.last_stamp(),
    }
}

// Logs the next segment of a hart, after `made` of its choices: local steps while the next one is
// local, then one step under the locks of the banks that it touches. Returns the number of local
// steps. Mostly the last step is of code and touches a word: then its instruction is in the job's
// table, and is looked up once for the word and for the step.
fn log_next<A: Allocator + Copy, G: Gate, R: Wait>(
    rt: &R,
    alloc: A,
    job: &Job<A>,
    gate: &G,
    log: &mut HartLog<A>,
    made: u32,
) -> Result<u32, StepFault>
    requires room { made < job.now.budget }
    requires few { log.old.hart < 32 }
    requires image { log.old.image ≡ job.now.image.now }
    ensures adds { IfOk result (λ local. AddsStep log.old log.new (next_segment log.old job.now.plan.now.keys made local)) }
    ensures room { IfOk result (λ local. made + local < job.now.budget) }
    ensures fits { IfOk result (λ local. made + local + 1 < 2 ^ 32) }
{
    let limit = job.budget - made - 1;
    let Some(AheadTouch { local, touch }) = log.walk_to_touch(&job.code, &job.instrs, limit) else {
        return log_other(rt, alloc, job, gate, log, made);
    };
    gate.arrive(log.number(), local);
    let next = next_segment(job, log, made, local);
    step_to_word(rt, job, gate, log, &next, touch)?;
    Ok(local)
}

// The same where the last step's instruction isn't in the table, or touches no word.
fn log_other<A: Allocator + Copy, G: Gate, R: Wait>(
    rt: &R,
    alloc: A,
    job: &Job<A>,
    gate: &G,
    log: &mut HartLog<A>,
    made: u32,
) -> Result<u32, StepFault>
    requires room { made < job.now.budget }
    requires few { log.old.hart < 32 }
    requires image { log.old.image ≡ job.now.image.now }
    ensures adds { IfOk result (λ local. AddsStep log.old log.new (next_segment log.old job.now.plan.now.keys made local)) }
    ensures room { IfOk result (λ local. made + local < job.now.budget) }
    ensures fits { IfOk result (λ local. made + local + 1 < 2 ^ 32) }
{
    let limit = job.budget - made - 1;
    let Ahead { local, hart } = log.walk_ahead(&job.code, limit);
    gate.arrive(log.number(), local);
    let walked = Walked {
        next: next_segment(job, log, made, local),
        slot: Slot {
            hart,
            named: log.named(),
        },
    };
    step(rt, alloc, job, gate, log, &walked)?;
    Ok(local)
}

/// Makes a hart's choices until it has stopped or its budget is used up: local steps while the next
/// one is local, then one step under the locks of the banks that it touches. No lock is held while
/// the gate is asked to let the hart go on. A hart that spins lets other threads run between its
/// segments.
pub fn work<'a, A: Allocator + Copy, G: Gate, R: Wait>(
    rt: &R,
    alloc: A,
    job: &Job<'a, A>,
    gate: &G,
    hart: u32,
) -> Result<HartLog<'a, A>, StepFault>
    requires { hart < length job.now.inputs.now }
    ensures own { IfOk result (λ log. (log.image ≡ job.now.image.now) × (log.hart ≡ hart)) }
    ensures ended { IfOk result (λ log. LogHasEnded job.now.budget log) }
    ensures flagged { IfOk result (λ log. LogIsFlagged job.now.plan.now.keys hart 0 log.log) }
    ensures rising { IfOk result (λ log. Rises Earlier log.log) }
{
    let mut log = HartLog::new(alloc, job.image, job.inputs, hart);
    let mut spinning = Spinning::new(log.slot());
    let mut made = 0;
    'choices: while made < job.budget {
        if is_stopped(log.slot()) {
            return Ok(log);
        }
        let local = log_next(rt, alloc, job, gate, &mut log, made)?;
        spinning.look(log.slot());
        made += local + 1;
    }
    Ok(log)
}
