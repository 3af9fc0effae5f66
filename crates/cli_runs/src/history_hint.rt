//! Runs a program under a history again to explain how it ends.

ghost use Rattle.std.specs.Prelude.{◌<◌, length};
ghost use Rattle.std.specs.List.{All};

use byte_io::Status;
use cli_report::Audience;
use hint_fault::{Ended, Explained, ended_advice};
use history::{Entry, chosen_harts, read_history, replay_history};
use image::Image;
use machine::{Inputs, Machine};
use mem_flat::FlatStore;
use program_open::{ProgramForm, read_program};
use std::alloc::Allocator;

/// Whether the end of a run with this status is explained: it has failed, and a person looks on.
pub(crate) fn is_explained(status: Status, audience: Audience) -> bool {
    matches!(status, Status::Faulted | Status::Broken) && audience.is_told()
}

// Explains how a program's run under a history ends, and which clause of a rule it breaks. `None`
// if there is no such run, or out of memory.
pub(crate) fn history_advice<A: Allocator + Copy>(
    alloc: A,
    program: &[u8],
    inputs: &[u32],
    history: &[u8],
    explained: Explained,
) -> Option<String<A>> {
    let inputs = Inputs::new(inputs).ok()?;
    let entries = read_history(alloc, history, inputs.harts()).ok()?;
    replayed_advice(alloc, program, &inputs, &entries, explained)
}

// Explains how a replay of a history ends.
fn replayed_advice<A: Allocator + Copy>(
    alloc: A,
    program: &[u8],
    inputs: &Inputs,
    history: &[Entry],
    explained: Explained,
) -> Option<String<A>>
    requires within { All (λ e. e.hart < length inputs.now) history.now }
{
    let image: Image<A> = read_program(alloc, ProgramForm::Elf, program).ok()?;
    let mut machine: Machine<FlatStore<A>, A> = Machine::start(alloc, &image, inputs).ok()?;
    replay_history(&mut machine, history);
    let choices = chosen_harts(alloc, history).ok()?;
    let ended = Ended {
        image: &image,
        program,
        inputs: inputs.words(),
        choices: &choices,
        machine: &machine,
    };
    ended_advice(alloc, &ended, explained)
}
