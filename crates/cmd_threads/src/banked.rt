//! `threads --banked`: from a program, inputs, a budget and a plan to the history of the harts'
//! logs, their ends and the verdict on them.

ghost use Rattle.std.specs.Prelude.{◌≡◌, ◌≢◌, ◌^◌, ◌-◌, ◌<◌, length};
ghost use Rattle.std.specs.Prelude.{Ok, Err, IfErr, IfOk, IfSome, string_bytes};
ghost use Rattle.cmd_replay.specs.Replay.{replay_answer};
ghost use Rattle.cmd_run.specs.Certified.{IsCertified};
ghost use Rattle.machine.specs.Start.{IsStartable};
ghost use Rattle.program_open.specs.declared.program.ProgramForm.{ProgramForm};
ghost use Rattle.bank_threads.specs.Banked.{IsBanked};
ghost use Rattle.cmd_threads.specs.Threads.{HasKeptVerdict};
ghost use Rattle.cmd_threads.specs.declared.history_use.HistoryUse.{HistoryUse};
ghost use Rattle.cmd_threads.specs.BankedAnswer.{fault_of_banked_run, IfReadsBanked, IsBankedAnswer, IsOfRun, RefusesBanked, unruled};
ghost use Rattle.program_open.specs.CommandFaults.{IsRefusal};

use crate::answer::{answer_of, harts_of};
use crate::history_use::HistoryUse;
use crate::unread::answer_of_ends;
use crate::{ThreadsAnswer, ThreadsTask};
use bank_hart_log::HartLog;
use bank_memory::Bank;
use bank_merge::{logs_are_one_run, merge_matched};
use bank_threads::{RunFault, run_banked};
use byte_io::Source;
use image::Image;
use machine::Inputs;
use program_open::{CommandFault, ProgramForm, read_image};
use std::alloc::{AllocError, Allocator};
use std::sync::Wait;
use std::thread::Threads;
use thread_gate::Gate;

/// `threads --banked`: reads the program to its end, and runs it with a thread for each hart and a
/// lock for each bank of memory. The lines are those that `replay` prints of the run's history; the
/// history is returned if it is read.
pub fn banked_engine<
    A: Allocator + Copy + Send + Sync,
    P: Source,
    G: Gate + Sync,
    R: Threads + Wait + Sync,
>(
    rt: &R,
    alloc: A,
    task: ThreadsTask<A>,
    history: HistoryUse,
    program: &mut P,
    gate: &G,
) -> Result<ThreadsAnswer<A>, CommandFault>
    requires { P.failures program.old < 2 ^ 64 - 1 }
    ensures answer { IfOk result (λ answer. IfSome (P.left program.old) (λ p.
        IsBankedAnswer task.inputs.items task.budget task.plan.keys task.expect history p answer)) }
    ensures startable { IfOk result (λ _. IsStartable task.inputs.items) }
    // `replay` answers the same to that history, if it is read.
    ensures replays { IfOk result (λ answer. IfSome (P.left program.old) (λ p.
        history ≡ HistoryUse.Read
        → replay_answer task.inputs.items task.expect p (string_bytes answer.history)
        ≡ Ok (string_bytes answer.lines, answer.status))) }
    // For a file that is an object, run by as many harts as it is for, the verdict by its kind's
    // rule is never `broken`.
    ensures certified { IfOk result (λ answer. IfSome (P.left program.old) (λ p.
        IsCertified ProgramForm.Elf p task.inputs.items task.expect.rule
        → HasKeptVerdict task.expect.exit answer)) }
    // An input is invalid, and no thread was started.
    ensures refused { IfErr result (λ fault. IsRefusal fault → IfSome (P.left program.old) (λ p.
        RefusesBanked (length task.inputs.items) p fault)) }
    // The logs that threads leave match, and are in order.
    ensures matched { result ≢ Err CommandFault.Unmatched }
    ensures in_order { result ≢ Err CommandFault.OutOfOrder }
    // The program's device is named only if it failed, and no other is.
    ensures read { IfErr result (λ fault. IfReadsBanked fault
        (P.failures program.old < P.failures program.new)) }
{
    let image = match read_image(alloc, ProgramForm::Elf, program) {
        Ok(image) => image,
        Err(fault) => return Err(fault),
    };
    let inputs = match Inputs::new(&task.inputs) {
        Ok(inputs) => inputs,
        Err(fault) => return Err(CommandFault::from(fault)),
    };
    let banked = match run_banked(rt, alloc, &image, &inputs, task.budget, &task.plan, gate) {
        Ok(banked) => banked,
        Err(fault) => return Err(fault_of_banked(fault)),
    };
    match answer_of_logs(alloc, &image, &task, history, &banked.logs, &banked.banks) {
        Ok(answer) => Ok(answer),
        Err(AllocError) => Err(CommandFault::Memory),
    }
}

// The answer from a run's logs. Its choices are made only if a history or a verdict needs them.
fn answer_of_logs<A: Allocator + Copy>(
    alloc: A,
    image: &Image<A>,
    task: &ThreadsTask<A>,
    history: HistoryUse,
    logs: &[HartLog<A>],
    banks: &[Bank<A>],
) -> Result<ThreadsAnswer<A>, AllocError>
    requires { IsBanked image.now task.now.inputs.items task.now.budget task.now.plan.keys logs.now banks.now }
    ensures { IfOk result (λ answer.
        IsOfRun image.now task.now.inputs.items task.now.budget task.now.plan.keys task.now.expect history answer) }
{
    match history {
        HistoryUse::Read => merged_answer(alloc, image, task, history, logs, banks),
        HistoryUse::Unread => match task.expect.rule {
            Some(_) => merged_answer(alloc, image, task, history, logs, banks),
            None => unmerged_answer(alloc, image, task, logs, banks),
        },
    }
}

// The same, by the choices of the run.
fn merged_answer<A: Allocator + Copy>(
    alloc: A,
    image: &Image<A>,
    task: &ThreadsTask<A>,
    history: HistoryUse,
    logs: &[HartLog<A>],
    banks: &[Bank<A>],
) -> Result<ThreadsAnswer<A>, AllocError>
    requires { IsBanked image.now task.now.inputs.items task.now.budget task.now.plan.keys logs.now banks.now }
    ensures { IfOk result (λ answer.
        IsOfRun image.now task.now.inputs.items task.now.budget task.now.plan.keys task.now.expect history answer) }
{
    let choices = merge_matched(alloc, logs, banks)?;
    let harts = harts_of(alloc, logs)?;
    let answer = answer_of(alloc, &task.inputs, task.expect, history, &choices, &harts)?;
    Ok(answer)
}

// The same without a rule and without a history, which needs no choices.
fn unmerged_answer<A: Allocator + Copy>(
    alloc: A,
    image: &Image<A>,
    task: &ThreadsTask<A>,
    logs: &[HartLog<A>],
    banks: &[Bank<A>],
) -> Result<ThreadsAnswer<A>, AllocError>
    requires { IsBanked image.now task.now.inputs.items task.now.budget task.now.plan.keys logs.now banks.now }
    ensures { IfOk result (λ answer.
        IsOfRun image.now task.now.inputs.items task.now.budget task.now.plan.keys (unruled task.now.expect.exit) HistoryUse.Unread answer) }
{
    logs_are_one_run(logs, banks);
    let harts = harts_of(alloc, logs)?;
    let answer = answer_of_ends(alloc, task.expect.exit, &task.inputs, &harts)?;
    Ok(answer)
}

// A fault of the threads as one of the command.
fn fault_of_banked(fault: RunFault) -> CommandFault
    ensures { result ≡ fault_of_banked_run fault }
{
    match fault {
        RunFault::StartRefused => CommandFault::ThreadRefused,
        RunFault::StampsExhausted => CommandFault::StampsExhausted,
        RunFault::Stale => CommandFault::Stale,
        RunFault::Memory => CommandFault::Memory,
    }
}
