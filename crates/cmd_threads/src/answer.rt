//! The answer from a run's harts and choices.

ghost use Rattle.std.specs.Prelude.{◌≡◌, IfOk, map, string_bytes};
ghost use Rattle.hart_step.specs.Hart.{hart_of};
ghost use Rattle.history.specs.Plain.{plain_entry};
ghost use Rattle.outcome.specs.Ends.{verdict_on};
ghost use Rattle.cmd_run.specs.Run.{shown_with};
ghost use Rattle.cmd_threads.specs.BankedAnswer.{hart_of_log, text_for};

use crate::ThreadsAnswer;
use crate::history_use::HistoryUse;
use bank_hart_log::HartLog;
use cmd_run::{Expect, ends_text};
use hart_step::Hart;
use history::choices_text;
use machine::Choice;
use std::alloc::{AllocError, Allocator};

/// The hart at the end of each log.
pub(crate) fn harts_of<A: Allocator>(
    alloc: A,
    logs: &[HartLog<A>],
) -> Result<Vec<Hart, A>, AllocError>
    ensures { IfOk result (λ harts. map hart_of harts.items ≡ map hart_of_log logs.now) }
{
    let mut harts = Vec::new(alloc);
    'logs: for log in logs {
        harts.push(*log.slot())?;
    }
    Ok(harts)
}

// Choices as the text of a history, if that is read.
fn text_for<A: Allocator + Copy>(
    alloc: A,
    history: HistoryUse,
    choices: &[Choice],
) -> Result<String<A>, AllocError>
    ensures { IfOk result (λ text. string_bytes text ≡ text_for history (map plain_entry choices.now)) }
{
    match history {
        HistoryUse::Read => choices_text(alloc, choices),
        HistoryUse::Unread => Ok(String::new(alloc)),
    }
}

/// Choices as the text of a history, and the lines of the harts that they lead to, under a rule
/// with the verdict.
pub(crate) fn answer_of<A: Allocator + Copy>(
    alloc: A,
    inputs: &[u32],
    expect: Expect,
    history: HistoryUse,
    choices: &[Choice],
    harts: &[Hart],
) -> Result<ThreadsAnswer<A>, AllocError>
    ensures history { IfOk result (λ answer.
        string_bytes answer.history ≡ text_for history (map plain_entry choices.now)) }
    ensures lines { IfOk result (λ answer.
        shown_with expect.exit
        (verdict_on expect.rule inputs.now choices.now (map hart_of harts.now)) (map hart_of harts.now)
        ≡ (string_bytes answer.lines, answer.status)) }
{
    let history = text_for(alloc, history, choices)?;
    let (lines, status) = ends_text(alloc, expect, inputs, choices, harts)?;
    Ok(ThreadsAnswer {
        history,
        lines,
        status,
    })
}
