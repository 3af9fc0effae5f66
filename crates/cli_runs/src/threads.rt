//! Runs `threads`.

ghost use Rattle.std.specs.Prelude.{◌^◌, ◌-◌, ◌<◌};

use crate::exiting::exit_of;
use crate::history_hint::{history_advice, is_explained};
use crate::telling_gate::TellingGate;
use byte_io::{Source, Status};
use cli_args::{LineFault, read_inputs, read_number};
use cli_orders::{Locks, ThreadsOrder, read_plan};
use cli_report::{
    Audience, EndsTold, Explained, OutputFault, OutputFile, RunFiles, TEXT_MODE, bad_line,
    cannot_write, is_same_file, open_one, out_of_memory, print_text, read_again, read_rule, refuse,
    say, say_why, show, would_overwrite,
};
use cmd_threads::{HistoryUse, ThreadsAnswer, ThreadsTask, banked_engine, threads_engine};
use outcome::Expect;
use program_open::{CommandFault, write_text};
use std::alloc::Global;
use std::collections::BTreeSet;
use std::rt::Files;
use std::sync::Wait;
use std::thread::Threads;
use thread_gate::Gate;

// Why `--total` isn't taken beside `--banked`.
const TOTAL_OR_BANKED: &str =
    "--total counts the steps of all harts under one lock, and --banked has no such lock: they don't go together";

// Parses the total of all harts, if there is one.
fn read_total(order: &ThreadsOrder) -> Result<Option<u32>, LineFault> {
    match order.total {
        Some(text) => Ok(Some(read_number(text, u64::from(u32::MAX))? as u32)),
        None => Ok(None),
    }
}

// Parses the order's texts.
fn read_task(alloc: Global, order: &ThreadsOrder) -> Result<ThreadsTask<Global>, LineFault> {
    let inputs = read_inputs(alloc, order.inputs)?;
    let budget = read_number(order.budget, u64::from(u32::MAX))? as u32;
    let plan = match order.refuse {
        Some(text) => read_plan(alloc, text)?,
        None => BTreeSet::new(alloc),
    };
    let expect = Expect {
        rule: read_rule(order.rule)?,
        exit: exit_of(order.must_exit),
    };
    Ok(ThreadsTask {
        inputs,
        budget,
        plan,
        expect,
    })
}

// Whether the history is used: it is written if that is ordered, and explains to a person why harts
// were stopped.
fn use_of_history(audience: Audience, order: &ThreadsOrder) -> HistoryUse {
    if order.history.is_some() || audience.is_told() {
        HistoryUse::Read
    } else {
        HistoryUse::Unread
    }
}

// Runs a task with the ordered kind of locks. Over banks there is no total.
fn run_task<P: Source, G: Gate + Sync, R: AllocGlobal + Threads + Wait + Sync>(
    rt: &R,
    locks: Locks,
    task: ThreadsTask<Global>,
    total: Option<u32>,
    history: HistoryUse,
    program: &mut P,
    gate: &G,
) -> Result<ThreadsAnswer<Global>, CommandFault>
    requires { P.failures program.old < 2 ^ 64 - 1 }
{
    match locks {
        Locks::One => threads_engine(rt, rt.alloc(), task, total, program, gate),
        Locks::Banks => banked_engine(rt, rt.alloc(), task, history, program, gate),
    }
}

/// Runs each hart in a thread of its own. The history is written before anything is printed, and
/// never over the program. A person sees the progress.
pub fn obey_threads<R: Files + AllocGlobal + Print + Eprint + Threads + Wait + Sync>(
    rt: &R,
    audience: Audience,
    order: &ThreadsOrder,
) -> Result<Status, Status> {
    let task = match read_task(rt.alloc(), order) {
        Ok(task) => task,
        Err(fault) => return Err(refuse(rt, &fault)),
    };
    let total = match read_total(order) {
        Ok(total) => total,
        Err(fault) => return Err(refuse(rt, &fault)),
    };
    if total.is_some() && order.locks == Locks::Banks {
        return Err(bad_line(rt, TOTAL_OR_BANKED));
    }
    let mut program = open_one(rt, audience, order.file)?;
    if let Some(path) = order.history {
        if is_same_file(rt, order.file, path) {
            return Err(would_overwrite(rt, path));
        }
    }
    let gate = TellingGate::new(rt, audience);
    let history = use_of_history(audience, order);
    let answer = run_task(rt, order.locks, task, total, history, &mut program, &gate);
    gate.wipe();
    match answer {
        Ok(answer) => write_answer(rt, audience, order, &answer),
        Err(fault) => Err(tell_fault(rt, audience, order, fault)),
    }
}

// Writes the history if that is ordered, and prints how the harts ended.
fn write_answer<R: Files + AllocGlobal + Print + Eprint>(
    rt: &R,
    audience: Audience,
    order: &ThreadsOrder,
    answer: &ThreadsAnswer<Global>,
) -> Result<Status, Status> {
    if let Some(path) = order.history {
        write_history(rt, path, answer.history.as_bytes())?;
    }
    match print_text(rt, answer.lines.as_bytes()) {
        Ok(()) => {
            if is_explained(answer.status, audience)
                || (audience.is_told() && is_any_running(answer))
            {
                let _ = explain_ends(rt, order, answer.history.as_bytes());
            }
            Ok(answer.status)
        }
        Err(fault) => Err(say(rt, fault)),
    }
}

// Writes the history to a file of its own.
fn write_history<R: Files + AllocGlobal + Print + Eprint>(
    rt: &R,
    path: &str,
    text: &[u8],
) -> Result<(), Status> {
    let mut file = OutputFile::new(rt, path, TEXT_MODE);
    let kept = match write_text(&mut file, text) {
        Ok(()) => file.keep(),
        Err(_) => {
            let unopened = file.fault();
            file.forget();
            Err(unopened.unwrap_or(OutputFault::Refused))
        }
    };
    match kept {
        Ok(()) => Ok(()),
        Err(OutputFault::Memory) => Err(out_of_memory(rt)),
        Err(OutputFault::Refused) => Err(cannot_write(rt, path)),
    }
}

// Reports why a run on threads gives no answer, and explains an invalid input to a person.
fn tell_fault<R: Files + AllocGlobal + Eprint>(
    rt: &R,
    audience: Audience,
    order: &ThreadsOrder,
    fault: CommandFault,
) -> Status {
    let harts = match read_inputs(rt.alloc(), order.inputs) {
        Ok(inputs) => inputs.len(),
        Err(_) => 0,
    };
    say_why(rt, audience, RunFiles::of_program(order.file, harts), fault)
}

// Explains how the run ended, by its history, if its program can be read again.
fn explain_ends<R: Files + AllocGlobal + Eprint>(
    rt: &R,
    order: &ThreadsOrder,
    history: &[u8],
) -> Option<()> {
    let inputs = read_inputs(rt.alloc(), order.inputs).ok()?;
    let program = read_again(rt, order.file)?;
    let explained = Explained {
        ends: ends_told(order),
        rule: read_rule(order.rule).ok()?,
    };
    let text = history_advice(rt.alloc(), &program, inputs.as_slice(), history, explained)?;
    show(rt, &text);
    Some(())
}

// Which ends are explained.
fn ends_told(order: &ThreadsOrder) -> EndsTold {
    match order.total {
        Some(_) => EndsTold::FaultsAndAllUsedUp,
        None => EndsTold::FaultsAndUsedUp,
    }
}

// Whether a hart still runs, having used its budget or the total up.
fn is_any_running(answer: &ThreadsAnswer<Global>) -> bool {
    answer.lines.contains(" running ")
}
