//! Runs `replay`.

use crate::exiting::exit_of;
use crate::history_hint::{history_advice, is_explained};
use byte_io::Status;
use cli_orders::ReplayOrder;
use cli_report::{
    Audience, EndsTold, Explained, RunChoices, RunFiles, inputs_said, open_both, print_answer,
    read_again, rule_said, say_why, show,
};
use cmd_replay::replay_engine;
use outcome::Expect;
use program_open::ProgramForm;
use std::rt::Files;

/// Runs a program under a history. Both files are opened before either is read. The
/// error is the status of what was refused, which is reported.
pub fn obey_replay<R: Files + AllocGlobal + Print + Eprint>(
    rt: &R,
    audience: Audience,
    order: &ReplayOrder,
) -> Result<Status, Status> {
    let inputs = inputs_said(rt, order.inputs)?;
    let expect = Expect {
        rule: rule_said(rt, order.rule)?,
        exit: exit_of(order.must_exit),
    };
    let (mut program, mut history) = open_both(rt, audience, order.file, order.history)?;
    let answer = replay_engine(
        rt.alloc(),
        inputs.as_slice(),
        expect,
        &mut program,
        &mut history,
    );
    let files = RunFiles {
        program: order.file,
        form: ProgramForm::Elf,
        choices: RunChoices::File(order.history),
        harts: inputs.len(),
    };
    match print_answer(rt, answer) {
        Ok(status) => {
            if is_explained(status, audience) {
                let _ = explain_ends(rt, order, inputs.as_slice(), expect);
            }
            Ok(status)
        }
        Err(fault) => Err(say_why(rt, audience, files, fault)),
    }
}

// Explains how the replay ended, if its files can be read again.
fn explain_ends<R: Files + AllocGlobal + Eprint>(
    rt: &R,
    order: &ReplayOrder,
    inputs: &[u32],
    expect: Expect,
) -> Option<()> {
    let program = read_again(rt, order.file)?;
    let history = read_again(rt, order.history)?;
    let explained = Explained {
        ends: ends_told(order.must_exit),
        rule: expect.rule,
    };
    let text = history_advice(rt.alloc(), &program, inputs, &history, explained)?;
    show(rt, &text);
    Some(())
}

// Which ends of harts are explained.
fn ends_told(must_exit: bool) -> EndsTold {
    if must_exit {
        EndsTold::FaultsAndRunning
    } else {
        EndsTold::Faults
    }
}
