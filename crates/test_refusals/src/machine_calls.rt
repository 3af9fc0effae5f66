//! Calls that make and copy machines, that let paged machines go on, and that make, read and print
//! schedules and histories.
use debug_session::byte_at;
use history::{Entry, HistoryFault, print_history, read_history};
use machine::{Choice, Inputs, Machine};
use mem_flat::FlatStore;
use mem_paged::PageStore;
use mem_store::FromImage;
use sched_draw::{Schedule, list_schedule};
use sched_run::Chosen;
use sched_text::{ChoiceFault, print_choices, print_runs, read_choices};
use std::alloc::{AllocError, Allocator, Global};
use test_images::{STORES_INPUT, writable_program};
use test_refusing::{Call, tried};

// A call.
#[derive(Clone, Copy)]
enum MachineCall {
    Start,
    CopyMachine,
    Step,
    ListSchedule,
    ReadChoices,
    PrintChoices,
    PrintRuns,
    ChosenHarts,
    ReadHistory,
    PrintHistory,
}

// All of them.
const CALLS: [(&str, MachineCall); 10] = [
    ("start", MachineCall::Start),
    ("copy of a machine", MachineCall::CopyMachine),
    ("step", MachineCall::Step),
    ("list_schedule", MachineCall::ListSchedule),
    ("read_choices", MachineCall::ReadChoices),
    ("print_choices", MachineCall::PrintChoices),
    ("print_runs", MachineCall::PrintRuns),
    ("chosen harts", MachineCall::ChosenHarts),
    ("read_history", MachineCall::ReadHistory),
    ("print_history", MachineCall::PrintHistory),
];

impl Call for MachineCall {
    fn answer<A: Allocator + Copy>(&self, alloc: A, _host: Global) -> Result<bool, AllocError> {
        match self {
            MachineCall::Start => is_started(alloc),
            MachineCall::CopyMachine => is_copied(alloc),
            MachineCall::Step => is_stepped(alloc),
            MachineCall::ListSchedule => has_turns(alloc),
            MachineCall::ReadChoices => is_read(alloc),
            MachineCall::PrintChoices => are_choices_printed(alloc),
            MachineCall::PrintRuns => are_runs_printed(alloc),
            MachineCall::ChosenHarts => has_chosen(alloc),
            MachineCall::ReadHistory => is_history(alloc),
            MachineCall::PrintHistory => is_history_printed(alloc),
        }
    }
}

fn has_turns<A: Allocator + Copy>(alloc: A) -> Result<bool, AllocError> {
    let choices = list_schedule(alloc, Schedule::Turns, 2, 9)?;
    Ok(choices.len() == 9)
}

fn are_choices_printed<A: Allocator + Copy>(alloc: A) -> Result<bool, AllocError> {
    let text = print_choices(alloc, &CHOICES)?;
    Ok(text.as_str() == "3 3 0! 7 7 0\n")
}

fn are_runs_printed<A: Allocator + Copy>(alloc: A) -> Result<bool, AllocError> {
    let text = print_runs(alloc, &CHOICES)?;
    Ok(text.as_str() == "3*2 0! 7*2 0\n")
}

fn has_chosen<A: Allocator + Copy>(alloc: A) -> Result<bool, AllocError> {
    let mut chosen = Chosen::new();
    for hart in 0..32usize {
        chosen.add(hart);
    }
    let choices = chosen.choices(alloc)?;
    Ok(choices.len() == 32)
}

fn is_history_printed<A: Allocator + Copy>(alloc: A) -> Result<bool, AllocError> {
    let text = print_history(alloc, &ENTRIES)?;
    Ok(text.as_str() == "0+3 1+4294967295! 1+0 0+1\n")
}

const TURN: Choice = Choice {
    hart: 0,
    refuse: false,
};

#[rattlefmt::skip]
const CHOICES: [Choice; 6] = [
    Choice { hart: 3, refuse: false },
    Choice { hart: 3, refuse: false },
    Choice { hart: 0, refuse: true },
    Choice { hart: 7, refuse: false },
    Choice { hart: 7, refuse: false },
    Choice { hart: 0, refuse: false },
];

#[rattlefmt::skip]
const ENTRIES: [Entry; 4] = [
    Entry { hart: 0, local: 3, refuse: false },
    Entry { hart: 1, local: 4_294_967_295, refuse: true },
    Entry { hart: 1, local: 0, refuse: false },
    Entry { hart: 0, local: 1, refuse: false },
];

// A machine with two harts, at its start.
fn started<S: FromImage<A>, A: Allocator + Copy>(alloc: A) -> Result<Machine<S, A>, AllocError> {
    let image = writable_program(alloc, &STORES_INPUT)?;
    let Ok(inputs) = Inputs::new(&[7, 9]) else {
        return Err(AllocError);
    };
    Machine::start(alloc, &image, &inputs)
}

fn is_started<A: Allocator + Copy>(alloc: A) -> Result<bool, AllocError> {
    let machine: Machine<FlatStore<A>, A> = started(alloc)?;
    Ok(machine.ends().len() == 2)
}

fn is_copied<A: Allocator + Copy>(alloc: A) -> Result<bool, AllocError> {
    let machine: Machine<FlatStore<A>, A> = started(alloc)?;
    let copy = machine.copy(alloc)?;
    Ok(copy.ends() == machine.ends())
}

// Where the first hart stands.
fn pc<A: Allocator + Copy>(machine: &Machine<PageStore<A>, A>) -> Option<u32> {
    Some(machine.ends().first()?.pc)
}

// The step of a hart that is there.
fn step<A: Allocator + Copy>(
    machine: &mut Machine<PageStore<A>, A>,
    choice: Choice,
) -> Result<(), AllocError> {
    if choice.hart as usize >= machine.harts() {
        return Ok(());
    }
    machine.step(choice)
}

// Whether a step that stores 7 into a page that a copied machine shares was answered: where it is
// refused, the hart stands where it stood.
fn answer_of_step<A: Allocator + Copy>(
    stepped: Result<(), AllocError>,
    machine: &Machine<PageStore<A>, A>,
    copy: &Machine<PageStore<A>, A>,
) -> Result<bool, AllocError> {
    match stepped {
        Ok(()) => {
            let stored = byte_at(machine.store(), 0x0001_1006);
            let kept = byte_at(copy.store(), 0x0001_1006);
            Ok(stored == 7 && kept == 0)
        }
        Err(AllocError) if pc(machine) == Some(0x0001_0004) => Err(AllocError),
        Err(AllocError) => Ok(false),
    }
}

// A store into a page that a copied machine shares.
fn is_stepped<A: Allocator + Copy>(alloc: A) -> Result<bool, AllocError> {
    let mut machine: Machine<PageStore<A>, A> = started(alloc)?;
    let copy = machine.copy(alloc)?;
    step(&mut machine, TURN)?;
    let stepped = step(&mut machine, TURN);
    answer_of_step(stepped, &machine, &copy)
}

fn is_read<A: Allocator + Copy>(alloc: A) -> Result<bool, AllocError> {
    match read_choices(alloc, b"0 1 0! 1 0 1 1! 0 1 0 0 0 1 1 1 0 1 0 1", 2) {
        Ok(choices) => Ok(choices.len() == 19),
        Err(ChoiceFault::Memory) => Err(AllocError),
        Err(_) => Ok(false),
    }
}

fn is_history<A: Allocator + Copy>(alloc: A) -> Result<bool, AllocError> {
    let text = "0+1 1+0 0+2! 1+1 0+0 1+3 1+1! 0+0 1+4 0+9 0+0 0+1 1+2 1+0 1+1 0+0 1+5 0+6 1+7";
    match read_history(alloc, text.as_bytes(), 2) {
        Ok(entries) => Ok(entries.len() == 19),
        Err(HistoryFault::Memory) => Err(AllocError),
        Err(_) => Ok(false),
    }
}

#[test]
fn calls_on_machines_tell_want_of_memory(rt: HostRuntime) {
    for (name, call) in &CALLS {
        assert!(rt; tried(rt.alloc(), call) == Ok(()), "{name}");
    }
}
