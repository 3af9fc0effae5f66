//! Runs `run` with properties, where it decides whether its run hangs, or for an object of JSON.

use crate::hangs::show_hang;
use crate::said::properties_said;
use byte_io::Status;
use cli_args::RunOrder;
use cli_report::{
    Audience, HANGS_OR_MUST_EXIT, RunChoices, RunFiles, bad_line, form_said, inputs_said, open_run,
    print_text, say_why, show,
};
use cli_run::{expect_said, explain_failure, has_failed, obey_run};
use cmd_properties::{Form, Hangs, RunStatus, judged_text};
use hint_breaks::breaks_advice;
use program_named::open_named;
use program_open::CommandFault;
use std::rt::Files;

/// Runs a program under choices, those of its order, judges the order's properties, if it has some,
/// and decides whether the run hangs, if it asks for that; prints lines, or an object of JSON. The
/// program, and the file of the choices if there is one, are opened before either is read. The error
/// is the status of what was refused, which is reported.
pub fn obey_any_run<R: Files + AllocGlobal + Print + Eprint>(
    rt: &R,
    audience: Audience,
    order: &RunOrder,
    choices: RunChoices<'_>,
) -> Result<RunStatus, Status> {
    if order.hangs && order.must_exit {
        return Err(bad_line(rt, HANGS_OR_MUST_EXIT));
    }
    if order.has_properties() || order.json || order.hangs {
        obey_judged(rt, audience, order, choices)
    } else {
        let status = obey_run(rt, audience, order, choices)?;
        Ok(RunStatus::Of(status))
    }
}

// The form in which an order is answered.
fn form_of(order: &RunOrder) -> Form {
    if order.json { Form::Json } else { Form::Text }
}

// Whether an order asks if its run hangs.
fn hangs_of(order: &RunOrder) -> Hangs {
    if order.hangs {
        Hangs::Asked
    } else {
        Hangs::Unasked
    }
}

// Runs a program under choices, judges the order's properties, and decides whether the run hangs.
fn obey_judged<R: Files + AllocGlobal + Print + Eprint>(
    rt: &R,
    audience: Audience,
    order: &RunOrder,
    choices: RunChoices<'_>,
) -> Result<RunStatus, Status> {
    let inputs = inputs_said(rt, order.inputs)?;
    let expect = expect_said(rt, order)?;
    let form = form_said(order.hex);
    let files = RunFiles {
        program: order.file,
        form,
        choices,
        harts: inputs.len(),
    };
    let (mut program, mut source) = open_run(rt, audience, order.file, choices)?;
    let run = match open_named(rt.alloc(), form, &inputs, &mut program, &mut source) {
        Ok(run) => run,
        Err(fault) => return Err(say_why(rt, audience, files, fault)),
    };
    let mut judged = properties_said(rt, &run.symbols, order)?;
    let (shown, asked) = (form_of(order), hangs_of(order));
    let answer = judged_text(rt.alloc(), shown, &run.opened, expect, asked, &mut judged);
    let Ok((text, status)) = answer else {
        return Err(say_why(rt, audience, files, CommandFault::Memory));
    };
    match print_text(rt, &text) {
        Ok(()) => {
            if audience.is_told() {
                match status {
                    RunStatus::Of(code) if has_failed(code) => {
                        let _ = explain_failure(rt, order, &inputs, choices, expect.rule);
                        let text = breaks_advice(rt.alloc(), &run.opened, &run.symbols, &judged);
                        show(rt, text.as_deref().unwrap_or(""));
                    }
                    RunStatus::Of(_) => {}
                    RunStatus::Hangs => show_hang(rt, &run),
                }
            }
            Ok(status)
        }
        Err(fault) => Err(say_why(rt, audience, files, fault)),
    }
}
