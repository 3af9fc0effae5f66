//! The whole program.
#![tactic(auto)]

use crate::chosen::{debug_chosen, gdb_chosen, run_chosen, shrink_chosen, trace_chosen};
use byte_io::Status;
use cli_campaign::{obey_campaign, obey_explore};
use cli_choices::obey_schedule;
use cli_files::{obey_asm, obey_info, obey_lib, obey_list};
use cli_orders::{Order, read_line};
use cli_properties::RunStatus;
use cli_report::{Audience, explain_line, out_of_memory, read_arguments, refuse_line};
use cli_runs::{obey_replay, obey_threads};
use object_library::KIND_NAMES;
use std::io::{Input, IsTerminal};
use std::process::ExitCode;
use std::rt::{Clock, Env, Files};
use std::sync::Wait;
use std::thread::Threads;

mod chosen;

fn main(rt: HostRuntime) -> ExitCode {
    let audience = if rt.stderr().is_terminal() {
        Audience::Person
    } else {
        Audience::Program
    };
    let talk = if rt.stdin().is_terminal() && rt.stdout().is_terminal() {
        Audience::Person
    } else {
        Audience::Program
    };
    match obey(&rt, audience, talk) {
        Ok(status) => ExitCode::from(status.code()),
        Err(status) => ExitCode::from(status.code()),
    }
}

// Runs the command of the command line. The error is the status of what was refused, which is
// reported. `seen_by` is the audience of standard error unless the line says otherwise, `talk` that
// of the debugger.
fn obey<R: Files + AllocGlobal + Print + Eprint + Env + Threads + Wait + Sync + Input + Clock>(
    rt: &R,
    seen_by: Audience,
    talk: Audience,
) -> Result<RunStatus, Status> {
    let arguments = read_arguments(rt)?;
    let Ok(words) = arguments
        .iter()
        .map(|word| word.as_str())
        .collect::<Vec<&str>>(rt.alloc())
    else {
        return Err(out_of_memory(rt));
    };
    let audience = seen_by.as_said(words.as_slice());
    let answer = match read_line(rt.alloc(), words.as_slice(), KIND_NAMES) {
        Ok(Order::Run(order)) => return run_chosen(rt, audience, &order),
        Ok(Order::Campaign(order)) => return obey_campaign(rt, audience, &order),
        Ok(Order::Asm(order)) => Ok(obey_asm(rt, audience, &order)),
        Ok(Order::Debug(order)) => debug_chosen(rt, audience, talk, &order),
        Ok(Order::Gdb(order)) => gdb_chosen(rt, audience, &order),
        Ok(Order::Lib(order)) => Ok(obey_lib(rt, &order)),
        Ok(Order::List(order)) => Ok(obey_list(rt, audience, &order)),
        Ok(Order::Info(order)) => Ok(obey_info(rt, audience, &order)),
        Ok(Order::Threads(order)) => obey_threads(rt, audience, &order),
        Ok(Order::Replay(order)) => obey_replay(rt, audience, &order),
        Ok(Order::Explore(order)) => obey_explore(rt, audience, &order),
        Ok(Order::Schedule(order)) => obey_schedule(rt, audience, &order),
        Ok(Order::Shrink(order)) => shrink_chosen(rt, audience, &order),
        Ok(Order::Trace(order)) => trace_chosen(rt, audience, &order),
        Err(fault) => {
            let status = refuse_line(rt, &fault);
            explain_line(rt, audience, words.as_slice(), &fault);
            Err(status)
        }
    };
    match answer {
        Ok(status) => Ok(RunStatus::Of(status)),
        Err(status) => Err(status),
    }
}
