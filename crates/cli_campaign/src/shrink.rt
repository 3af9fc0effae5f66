//! Runs `shrink`.

ghost use Rattle.std.specs.Prelude.{◌-◌, ◌<◌, ◌^◌};

use crate::exiting::exit_of;
use crate::properties::{PropertyTexts, listed, read_properties};
use byte_io::{MemorySource, Source, Status};
use cli_orders::ShrinkOrder;
use cli_report::{
    Audience, RunChoices, RunFiles, WIPE, inputs_said, open_run, out_of_memory, print_answer,
    rule_said, say_why, show,
};
use cmd_campaign::Expect;
use cmd_shrink::{ChoicesLeft, Property, shrink_engine};
use program_open::{CommandFault, ProgramForm};
use std::rt::Files;

// Shows a person the number of choices left.
#[derive(Drop)]
struct Line<'a, R> {
    rt: &'a R,
    audience: Audience,
}

impl<'a, R: Eprint> ChoicesLeft for Line<'a, R> {
    fn choices_left(&mut self, left: usize) {
        if self.audience.sees_progress() {
            // If standard error is closed, nobody sees it.
            let _ = eprint!(self.rt; "{WIPE}{left} choices left");
        }
    }

    fn choices_needed(&mut self, needed: usize) {
        if self.audience.sees_progress() {
            // The choice text begins on a line of its own.
            let _ = eprintln!(self.rt; "{WIPE}{needed} choices needed");
        }
    }
}

// What is shrunk, but for the program and its choices.
#[derive(Clone, Copy)]
struct Asked<'a> {
    order: &'a ShrinkOrder<'a>,
    inputs: &'a [u32],
    expect: Expect,
    properties: &'a [Property],
    files: RunFiles<'a>,
}

/// Prints a minimal choice text under which a program fails as it does under the given one. The
/// program, and the file of the choices if there is one, are opened before either is read. A person
/// sees the number of choices left.
pub fn obey_shrink<R: Files + AllocGlobal + Print + Eprint>(
    rt: &R,
    audience: Audience,
    order: &ShrinkOrder,
    choices: RunChoices<'_>,
) -> Result<Status, Status> {
    let inputs = inputs_said(rt, order.inputs)?;
    let rule = rule_said(rt, order.rule)?;
    let (mut program, mut source) = open_run(rt, audience, order.file, choices)?;
    let asked = Asked {
        order,
        inputs: &inputs,
        expect: Expect {
            rule,
            exit: exit_of(order.must_exit),
        },
        properties: &[],
        files: RunFiles {
            program: order.file,
            form: ProgramForm::Elf,
            choices,
            harts: inputs.len(),
        },
    };
    if order.has_properties() {
        return print_judged(rt, audience, asked, &mut program, &mut source);
    }
    print_shrunk(rt, audience, asked, &mut program, &mut source)
}

// Reads the program, since the order's properties name its symbols, and prints a minimal choice
// text, where a run that breaks one of them has failed.
fn print_judged<R: Files + AllocGlobal + Print + Eprint, P: Source, C: Source>(
    rt: &R,
    audience: Audience,
    asked: Asked<'_>,
    program: &mut P,
    choices: &mut C,
) -> Result<Status, Status>
    requires program_counts { P.failures program.old < 2 ^ 64 - 1 }
    requires choices_count { C.failures choices.old < 2 ^ 64 - 1 }
{
    let (file, texts) = (asked.order.file, PropertyTexts::of_shrink(asked.order));
    let (bytes, properties) = read_properties(rt, audience, file, texts, asked.inputs, program)?;
    let Ok(properties) = listed(rt.alloc(), properties) else {
        return Err(out_of_memory(rt));
    };
    let asked = Asked {
        properties: &properties,
        ..asked
    };
    let mut program = MemorySource::new(&bytes);
    print_shrunk(rt, audience, asked, &mut program, choices)
}

// Prints a minimal choice text.
fn print_shrunk<R: Files + AllocGlobal + Print + Eprint, P: Source, C: Source>(
    rt: &R,
    audience: Audience,
    asked: Asked<'_>,
    program: &mut P,
    choices: &mut C,
) -> Result<Status, Status>
    requires program_counts { P.failures program.old < 2 ^ 64 - 1 }
    requires choices_count { C.failures choices.old < 2 ^ 64 - 1 }
{
    let (alloc, line) = (rt.alloc(), &mut Line { rt, audience });
    let (inputs, expect, properties) = (asked.inputs, asked.expect, asked.properties);
    let answer = shrink_engine(alloc, inputs, expect, properties, program, choices, line);
    match print_answer(rt, answer) {
        Ok(status) => Ok(status),
        Err(fault) => Err(tell(rt, audience, asked.order, asked.files, fault)),
    }
}

// What would have been a failure, as a sentence.
fn what_would_fail(must_exit: bool) -> &'static str {
    if must_exit {
        "no hart faults under these choices, or with --rule the rule is kept, and given as many steps more all harts stop: run shows how they end\n"
    } else {
        "no hart faults under these choices, or with --rule the rule is kept: run shows how the harts end, and --must-exit shrinks a run that hangs\n"
    }
}

// Reports why nothing is shrunk.
fn tell<R: Files + AllocGlobal + Eprint>(
    rt: &R,
    audience: Audience,
    order: &ShrinkOrder,
    files: RunFiles<'_>,
    fault: CommandFault,
) -> Status {
    let status = say_why(rt, audience, files, fault);
    if fault == CommandFault::NothingFails && audience.is_told() {
        if order.has_properties() {
            show(
                rt,
                "the properties hold at the start and after each choice; ",
            );
        }
        show(rt, what_would_fail(order.must_exit));
    }
    status
}
