//! The program of the command `run` alone. It depends on fewer crates than the whole program, so it
//! is proved and built sooner.
#![tactic(auto)]

use byte_io::Status;
use cli_args::{ChoiceText, RunOrder, read_run};
use cli_report::{
    Audience, RunChoices, bad_line, explain_line, out_of_memory, read_arguments, read_input_to_end,
    refuse_line,
};
use cli_run::obey_run;
use object_library::KIND_NAMES;
use std::io::{Input, IsTerminal};
use std::process::ExitCode;
use std::rt::{Env, Files};

fn main(rt: HostRuntime) -> ExitCode {
    let audience = if rt.stderr().is_terminal() {
        Audience::Person
    } else {
        Audience::Program
    };
    match obey(&rt, audience) {
        Ok(status) | Err(status) => ExitCode::from(status.code()),
    }
}

// Runs the `run` of the command line. A person sees explanations of faults.
fn obey<R: Files + AllocGlobal + Print + Eprint + Env + Input>(
    rt: &R,
    seen_by: Audience,
) -> Result<Status, Status> {
    let arguments = read_arguments(rt)?;
    let Ok(words) = arguments
        .iter()
        .map(|word| word.as_str())
        .collect::<Vec<&str>>(rt.alloc())
    else {
        return Err(out_of_memory(rt));
    };
    let audience = seen_by.as_said(words.as_slice());
    match read_run(rt.alloc(), words.as_slice(), KIND_NAMES) {
        Ok(Some(order)) => run(rt, audience, &order),
        Ok(None) => Err(bad_line(
            rt,
            "this is the program of run alone: the other commands are those of the whole program",
        )),
        Err(fault) => {
            let status = refuse_line(rt, &fault);
            explain_line(rt, audience, words.as_slice(), &fault);
            Err(status)
        }
    }
}

// Runs a program under choices of a file, of the line or of standard input.
fn run<R: Files + AllocGlobal + Print + Eprint + Input>(
    rt: &R,
    audience: Audience,
    order: &RunOrder,
) -> Result<Status, Status> {
    if order.has_properties() {
        return Err(bad_line(
            rt,
            "this is the program of run alone: the whole program judges properties",
        ));
    }
    if order.hangs {
        return Err(bad_line(
            rt,
            "this is the program of run alone: the whole program decides whether a run hangs",
        ));
    }
    if order.json {
        return Err(bad_line(
            rt,
            "this is the program of run alone: the whole program prints JSON",
        ));
    }
    let held = match order.choices {
        ChoiceText::File(_) | ChoiceText::List(_) => Vec::new(rt.alloc()),
        ChoiceText::Input => read_input_to_end(rt)?,
        ChoiceText::Seed(_) | ChoiceText::Turns(_) | ChoiceText::History(_) => {
            return Err(bad_line(
                rt,
                "this is the program of run alone: the whole program makes choices of seeds, turns and histories",
            ));
        }
    };
    obey_run(rt, audience, order, RunChoices::of(order.choices, &held))
}
