//! Runs `run`.

use byte_io::Status;
use cli_args::RunOrder;
use cli_report::{
    Audience, EndsTold, Explained, RunChoices, RunFiles, explain_ends, form_said, inputs_said,
    open_run, print_answer, read_again, rule_said, say_why,
};
use cmd_run::{Exit, Expect, run_engine};
use object_library::Kind;
use std::rt::Files;

/// Runs a program under choices, those of its order. The program, and the file of the choices if
/// there is one, are opened before either is read. The error is the status of what was refused,
/// which is reported.
pub fn obey_run<R: Files + AllocGlobal + Print + Eprint>(
    rt: &R,
    audience: Audience,
    order: &RunOrder,
    choices: RunChoices<'_>,
) -> Result<Status, Status> {
    let inputs = inputs_said(rt, order.inputs)?;
    let expect = expect_said(rt, order)?;
    let form = form_said(order.hex);
    let (mut program, mut source) = open_run(rt, audience, order.file, choices)?;
    let answer = run_engine(rt.alloc(), form, &inputs, expect, &mut program, &mut source);
    match print_answer(rt, answer) {
        Ok(status) => {
            if has_failed(status) && audience.is_told() {
                let _ = explain_failure(rt, order, &inputs, choices, expect.rule);
            }
            Ok(status)
        }
        Err(fault) => {
            let files = RunFiles {
                program: order.file,
                form,
                choices,
                harts: inputs.len(),
            };
            Err(say_why(rt, audience, files, fault))
        }
    }
}

/// What an order expects of its run, or the status of a rule that is none, which is reported.
pub fn expect_said(rt: &(impl Print + Eprint), order: &RunOrder) -> Result<Expect, Status> {
    let rule = rule_said(rt, order.rule)?;
    Ok(Expect {
        rule,
        exit: exit_of(order),
    })
}

// What is expected of a hart that still runs at the end.
fn exit_of(order: &RunOrder) -> Exit {
    if order.must_exit {
        Exit::Must
    } else {
        Exit::May
    }
}

/// Whether a run has failed that was done.
pub fn has_failed(status: Status) -> bool {
    matches!(status, Status::Faulted | Status::Broken)
}

// Which ends of harts are explained.
fn ends_told(order: &RunOrder) -> EndsTold {
    if order.must_exit {
        EndsTold::FaultsAndRunning
    } else {
        EndsTold::Faults
    }
}

/// Explains how a run ended, judged by its rule, if its files can be read again.
pub fn explain_failure<R: Files + AllocGlobal + Eprint>(
    rt: &R,
    order: &RunOrder,
    inputs: &[u32],
    choices: RunChoices<'_>,
    rule: Option<Kind>,
) -> Option<()> {
    let ends = ends_told(order);
    let program = read_again(rt, order.file)?;
    let choices = choices.again(rt)?;
    explain_ends(
        rt,
        form_said(order.hex),
        &program,
        inputs,
        &choices,
        Explained { ends, rule },
    )
}
