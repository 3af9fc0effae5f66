//! `threads`: from a program, inputs, a budget, a total and a plan to the history of the harts, their
//! ends and the verdict on them.

ghost use Rattle.std.specs.Prelude.{◌≡◌, ◌^◌, ◌-◌, ◌<◌, ◌≤◌, Ok, IfOk, IfErr, IfSome, length, string_bytes};
ghost use Rattle.cmd_replay.specs.Replay.{replay_answer};
ghost use Rattle.cmd_run.specs.Certified.{IsCertified};
ghost use Rattle.machine.specs.Start.{IsStartable};
ghost use Rattle.program_open.specs.declared.program.ProgramForm.{ProgramForm};
ghost use Rattle.program_open.specs.CommandFaults.{IsRefusal};
ghost use Rattle.cmd_threads.specs.Threads.{IfReads, IsAnswer, HasKeptVerdict, RefusesThreads, fault_of_run};

use byte_io::{Source, Status};
use cmd_replay::shown_after;
use cmd_run::Expect;
use history::print_history;
use machine::Inputs;
use program_open::{CommandFault, ProgramForm, read_image};
use std::alloc::{AllocError, Allocator};
use std::sync::Wait;
use std::thread::Threads;
use thread_gate::{Gate, Plan};
use thread_run::{Limits, RunFault, run_threads};

/// The parameters of a run on threads, besides the program.
#[derive(Drop)]
pub struct ThreadsTask<A: Allocator> {
    /// The inputs, one per hart.
    pub inputs: Vec<u32, A>,
    /// The greatest number of choices of each hart.
    pub budget: u32,
    /// Which store-conditionals are refused.
    pub plan: Plan<A>,
    /// What is expected of the run.
    pub expect: Expect,
}

/// The answer of a run on threads. The history is to be written before the lines are printed.
#[derive(Drop)]
pub struct ThreadsAnswer<A: Allocator> {
    /// The history's text.
    pub history: String<A>,
    /// How the harts end, and under a rule the verdict.
    pub lines: String<A>,
    /// The program's exit status.
    pub status: Status,
}

/// `threads`: reads the program to its end, and runs it with a thread for each hart. With a total all
/// harts together make at most as many choices. The lines are those that `replay` prints of the
/// history.
pub fn threads_engine<
    A: Allocator + Copy + Send + Sync,
    P: Source,
    G: Gate + Sync,
    R: Threads + Wait + Sync,
>(
    rt: &R,
    alloc: A,
    task: ThreadsTask<A>,
    total: Option<u32>,
    program: &mut P,
    gate: &G,
) -> Result<ThreadsAnswer<A>, CommandFault>
    requires { P.failures program.old < 2 ^ 64 - 1 }
    ensures answer { IfOk result (λ answer. IfSome (P.left program.old) (λ p.
        IsAnswer task.inputs.items task.budget total task.plan.keys p answer)) }
    ensures startable { IfOk result (λ _. IsStartable task.inputs.items) }
    // `replay` answers the same to that history.
    ensures replays { IfOk result (λ answer. IfSome (P.left program.old) (λ p.
        replay_answer task.inputs.items task.expect p (string_bytes answer.history)
        ≡ Ok (string_bytes answer.lines, answer.status))) }
    // For a file that is an object, run by as many harts as it is for, the verdict by its kind's
    // rule is never `broken`.
    ensures certified { IfOk result (λ answer. IfSome (P.left program.old) (λ p.
        IsCertified ProgramForm.Elf p task.inputs.items task.expect.rule
        → HasKeptVerdict task.expect.exit answer)) }
    // An input is invalid, and no thread was started.
    ensures refused { IfErr result (λ fault. IsRefusal fault
        → IfSome (P.left program.old) (λ p. RefusesThreads (length task.inputs.items) p fault)) }
    // The program's device is named only if it failed, and no other is.
    ensures read { IfErr result (λ fault. IfReads fault
        (P.failures program.old < P.failures program.new)) }
{
    let image = match read_image(alloc, ProgramForm::Elf, program) {
        Ok(image) => image,
        Err(fault) => return Err(fault),
    };
    let inputs = match Inputs::new(&task.inputs) {
        Ok(inputs) => inputs,
        Err(fault) => return Err(CommandFault::from(fault)),
    };
    let ThreadsTask {
        budget,
        plan,
        expect,
        ..
    } = task;
    let limits = Limits { budget, total };
    let book = match run_threads(rt, alloc, image, inputs, limits, plan, gate) {
        Ok(outcome) => outcome.book,
        Err(fault) => return Err(fault_of_threads(fault)),
    };
    let Ok(history) = print_history(alloc, book.history()) else {
        return Err(CommandFault::Memory);
    };
    match shown_after(
        alloc,
        book.inputs().words(),
        expect,
        book.history(),
        book.machine().ends(),
    ) {
        Ok((lines, status)) => Ok(ThreadsAnswer {
            history,
            lines,
            status,
        }),
        Err(AllocError) => Err(CommandFault::Memory),
    }
}

// A fault of the threads as one of the command.
fn fault_of_threads(fault: RunFault) -> CommandFault
    ensures { result ≡ fault_of_run fault }
{
    match fault {
        RunFault::StartRefused => CommandFault::ThreadRefused,
        RunFault::Stale => CommandFault::Stale,
        RunFault::Memory => CommandFault::Memory,
    }
}
