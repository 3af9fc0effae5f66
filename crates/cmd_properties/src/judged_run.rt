//! A run in which properties may be judged, and of which it may be asked whether it hangs.
ghost use Rattle.std.specs.Prelude.{◌≡◌, ◌<◌, ℕ, IfOk, List, length, map};
ghost use Rattle.std.specs.List.{All};
ghost use Rattle.machine.specs.Start.{started};
ghost use Rattle.property_judge.specs.Judged.{judged_run};
ghost use Rattle.cmd_run.specs.Run.{world_after};
ghost use Rattle.cmd_properties.specs.Shown.{has_broken, judged_shown, printed, status_with};
ghost use Rattle.hart_step.specs.Hart.{hart_of};

use crate::hangs::{push_hang_line, status_if};
use crate::lines::push_lines;
use crate::objects::run_object;
use byte_io::Status;
use cmd_json::Form;
use hart_step::Hart;
use machine::{Machine, Stopped};
use mem_flat::FlatStore;
use object_library::Verdict;
use outcome::{Expect, Outcome, lines_text, verdict_on};
use program_open::OpenRun;
use property_judge::{Judged, judge_run};
use run_hangs::{Hangs, RunStatus, hangs_if};
use std::alloc::{AllocError, Allocator};

// Whether one of these properties is broken.
fn has_broken(judged: &[Judged]) -> bool
    ensures { result ≡ has_broken judged.now }
{
    judged.iter().any(|each| each.broken.is_some())
}

// The status of a run that had one without properties.
fn status_with(judged: &[Judged], status: Status) -> Status
    ensures { result ≡ status_with judged.now status }
{
    if has_broken(judged) {
        Status::Broken
    } else {
        status
    }
}

// What is printed of a run in this form.
fn printed<A: Allocator + Copy>(
    alloc: A,
    form: Form,
    verdict: Option<Verdict>,
    harts: &[Hart],
    judged: &[Judged],
    hangs: Option<bool>,
) -> Result<Vec<u8, A>, AllocError>
    ensures { IfOk result (λ text. text.items
        ≡ printed form verdict (map hart_of harts.now) judged.now hangs) }
{
    match form {
        Form::Text => {
            let mut text = lines_text(alloc, verdict, harts)?;
            push_lines(&mut text, judged)?;
            push_hang_line(&mut text, hangs)?;
            Ok(text.into_bytes())
        }
        Form::Json => run_object(alloc, verdict, harts, judged, hangs),
    }
}

/// Runs an opened run's choices, and judges the properties at the start and after each choice.
/// Returns in this form what `run` prints of it, whether each property is broken and, if that is
/// asked, whether the run hangs; and the status, `Broken` if a property is broken, else that of the
/// run, or `Hangs` if it has failed in no other way. The only error is out of memory.
pub fn judged_text<A: Allocator + Copy>(
    alloc: A,
    form: Form,
    run: &OpenRun<A>,
    expect: Expect,
    asked: Hangs,
    judged: &mut [Judged],
) -> Result<(Vec<u8, A>, RunStatus), AllocError>
    requires { All (λ c. c.hart < length run.now.inputs) run.now.choices.items }
    ensures judged { IfOk result (λ _. judged.new
        ≡ map (judged_run (started run.now.image run.now.inputs) run.now.choices.items) judged.old) }
    ensures shown { IfOk result (λ answer.
        judged_shown form expect asked run.now.inputs run.now.choices.items judged.new
        (world_after run.now.image run.now.inputs run.now.choices.items)
        ≡ (answer.0.items, answer.1)) }
{
    let mut machine: Machine<FlatStore<A>, A> = Machine::start(alloc, &run.image, &run.inputs)?;
    match judge_run(&mut machine, &run.choices, judged) {
        Ok(()) => {}
        Err(Stopped { .. }) => return Err(AllocError),
    }
    let hangs = hangs_if(
        alloc,
        asked,
        &machine,
        run.inputs.harts(),
        run.choices.len(),
    )?;
    let harts = machine.ends();
    let verdict = verdict_on(expect.rule, run.inputs.words(), &run.choices, harts);
    let text = printed(alloc, form, verdict, harts, judged, hangs)?;
    let status = expect.status(Outcome::of(verdict, harts));
    Ok((text, status_if(hangs, status_with(judged, status))))
}
