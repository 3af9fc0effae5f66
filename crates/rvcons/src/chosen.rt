//! The commands whose choices a line names.

use byte_io::Status;
use cli_args::{ChoiceText, RunOrder};
use cli_campaign::obey_shrink;
use cli_choices::{NamedRun, hold_choices};
use cli_debug::obey_debug;
use cli_gdb::obey_gdb;
use cli_orders::{DebugOrder, ShrinkOrder, TraceOrder};
use cli_properties::{RunStatus, obey_any_run};
use cli_report::{Audience, RunChoices, bad_line, form_said};
use cli_runs::obey_trace;
use std::io::Input;
use std::rt::Files;

const COMMANDS: &str =
    "debug reads its commands from standard input, so its choices are in a file or on the line";

const PACKETS: &str =
    "gdb reads packets from standard input, so its choices are in a file or on the line";

/// Runs `run` under the choices that its line names.
pub(crate) fn run_chosen<R: Files + AllocGlobal + Print + Eprint + Input>(
    rt: &R,
    audience: Audience,
    order: &RunOrder,
) -> Result<RunStatus, Status> {
    let named = NamedRun {
        file: order.file,
        form: form_said(order.hex),
        inputs: order.inputs,
    };
    let held = hold_choices(rt, audience, named, order.choices)?;
    obey_any_run(rt, audience, order, RunChoices::of(order.choices, &held))
}

/// Runs `shrink` under the choices that its line names.
pub(crate) fn shrink_chosen<R: Files + AllocGlobal + Print + Eprint + Input>(
    rt: &R,
    audience: Audience,
    order: &ShrinkOrder,
) -> Result<Status, Status> {
    let named = NamedRun {
        file: order.file,
        form: form_said(false),
        inputs: order.inputs,
    };
    let held = hold_choices(rt, audience, named, order.choices)?;
    obey_shrink(rt, audience, order, RunChoices::of(order.choices, &held))
}

/// Runs `trace` under the choices that its line names.
pub(crate) fn trace_chosen<R: Files + AllocGlobal + Print + Eprint + Input>(
    rt: &R,
    audience: Audience,
    order: &TraceOrder,
) -> Result<Status, Status> {
    let named = NamedRun {
        file: order.file,
        form: form_said(order.hex),
        inputs: order.inputs,
    };
    let held = hold_choices(rt, audience, named, order.choices)?;
    obey_trace(rt, audience, order, RunChoices::of(order.choices, &held))
}

/// Runs `debug` over the choices that its line names, which standard input can't have.
pub(crate) fn debug_chosen<R: Files + AllocGlobal + Print + Eprint + Input>(
    rt: &R,
    audience: Audience,
    talk: Audience,
    order: &DebugOrder,
) -> Result<Status, Status> {
    if let ChoiceText::Input = order.choices {
        return Err(bad_line(rt, COMMANDS));
    }
    let named = NamedRun {
        file: order.file,
        form: form_said(false),
        inputs: order.inputs,
    };
    let held = hold_choices(rt, audience, named, order.choices)?;
    obey_debug(
        rt,
        audience,
        talk,
        order,
        RunChoices::of(order.choices, &held),
    )
}

/// Runs `gdb` over the choices that its line names, which standard input can't have.
pub(crate) fn gdb_chosen<R: Files + AllocGlobal + Print + Eprint + Input>(
    rt: &R,
    audience: Audience,
    order: &DebugOrder,
) -> Result<Status, Status> {
    if let ChoiceText::Input = order.choices {
        return Err(bad_line(rt, PACKETS));
    }
    let named = NamedRun {
        file: order.file,
        form: form_said(false),
        inputs: order.inputs,
    };
    let held = hold_choices(rt, audience, named, order.choices)?;
    obey_gdb(rt, audience, order, RunChoices::of(order.choices, &held))
}
