//! The schedules of small programs, and how they end, against all lists of choices, one by one.
use campaign_bounded::Schedules;
use machine::{Choice, Inputs, Machine, runs};
use mem_flat::FlatStore;
use outcome::{End, count_ends, some_run};
use std::alloc::{Allocator, Global};
use test_images::writable_program;

const DATA: u32 = 0x0001_1437; // lui s0, 0x11

const LOAD: u32 = 0x0004_2283; // lw t0, 0(s0)

const MORE: u32 = 0x0012_8293; // addi t0, t0, 1

const STORE: u32 = 0x0054_2023; // sw t0, 0(s0)

const SPLIT: u32 = 0x0005_1463; // bne a0, zero, 8

const SPLIT_FAR: u32 = 0x0005_1a63; // bne a0, zero, 20

const ROUND_UNLESS_ZERO: u32 = 0x0002_9063; // bne t0, zero, 0

const ONE: u32 = 0x0010_0293; // addi t0, zero, 1

const BREAK: u32 = 0x0010_0073; // ebreak

const EXIT: u32 = 0x05d0_0893; // addi a7, zero, 93

const CALL: u32 = 0x0000_0073; // ecall

// A word that both harts increment.
const ADDS: [u32; 5] = [DATA, LOAD, MORE, STORE, BREAK];

// Hart 0 goes round for ever unless it reads 0; hart 1 stores 1.
#[rattlefmt::skip]
const TRAPS: [u32; 10] = [
    DATA, SPLIT_FAR, LOAD, ROUND_UNLESS_ZERO, EXIT, CALL, ONE, STORE, EXIT, CALL,
];

// Hart 0 alone breaks.
const BREAKS: [u32; 4] = [SPLIT, BREAK, EXIT, CALL];

// A program, the number of choices, and that of preemptions.
struct Row {
    words: &'static [u32],
    choices: u32,
    preemptions: u32,
}

#[rattlefmt::skip]
const ROWS: [Row; 6] = [
    Row { words: &ADDS, choices: 10, preemptions: 0 },
    Row { words: &ADDS, choices: 7, preemptions: 1 },
    Row { words: &ADDS, choices: 10, preemptions: 8 },
    Row { words: &TRAPS, choices: 10, preemptions: 2 },
    Row { words: &BREAKS, choices: 6, preemptions: 1 },
    Row { words: &BREAKS, choices: 0, preemptions: 1 },
];

// The number of schedules, and marks of how they end: the sums of numbers that tell an end apart.
#[derive(Clone, Copy, PartialEq, Eq)]
struct Ends {
    schedules: u64,
    running: u64,
    faulted: u64,
    values: u64,
}

impl Ends {
    fn none() -> Ends {
        Ends {
            schedules: 0,
            running: 0,
            faulted: 0,
            values: 0,
        }
    }

    // With one end more.
    fn with<A: Allocator>(self, machine: &Machine<FlatStore<A>, A>) -> Ends {
        let harts = machine.ends();
        let mut value: u64 = 0;
        for hart in harts {
            value = value
                .wrapping_mul(1000)
                .wrapping_add(u64::from(hart.registers[5]));
        }
        Ends {
            schedules: self.schedules.wrapping_add(1),
            running: self
                .running
                .wrapping_add(count_ends(End::Running, harts) as u64),
            faulted: self
                .faulted
                .wrapping_add(count_ends(End::Faulted, harts) as u64),
            values: self.values.wrapping_add(value.wrapping_mul(value)),
        }
    }
}

fn machine_of<A: Allocator + Copy>(alloc: A, row: &Row) -> Option<Machine<FlatStore<A>, A>> {
    let image = writable_program(alloc, row.words).ok()?;
    let inputs = Inputs::new(&[7, 9]).ok()?;
    Machine::start(alloc, &image, &inputs).ok()
}

// The ends of the schedules that a walk gives.
fn walked(alloc: Global, row: &Row) -> Option<Ends> {
    let start = machine_of(alloc, row)?;
    let steps = u64::from(row.choices);
    let mut walk = Schedules::new(alloc, start, 2, steps, row.preemptions).ok()?;
    let mut ends = Ends::none();
    for _ in 0..10_000 {
        let Some(mut schedule) = walk.next(alloc).ok()? else {
            return Some(ends);
        };
        schedule.end_fairly(2, steps).ok()?;
        ends = ends.with(&schedule.machine);
    }
    None
}

// The machine after a list of choices and a fair tail; `None` where a choice is of a hart that has
// stopped, or is one preemption too many, or follows where no hart runs but is not of hart 0.
fn forced(alloc: Global, row: &Row, code: u32) -> Option<Machine<FlatStore<Global>, Global>> {
    let mut machine = machine_of(alloc, row)?;
    let mut left = row.preemptions;
    let mut last = None;
    for step in 0..row.choices.min(31) {
        let (hart, other) = if code >> step & 1 == 0 {
            (0, 1)
        } else {
            (1, 0)
        };
        if !some_run(machine.ends()) {
            if hart != 0 {
                return None;
            }
            continue;
        }
        if !runs(machine.ends(), hart) {
            return None;
        }
        if last == Some(other) && runs(machine.ends(), other) {
            left = left.checked_sub(1)?;
        }
        step_of(&mut machine, hart)?;
        last = Some(hart);
    }
    for turn in 0..row.choices {
        step_of(&mut machine, turn % 2)?;
    }
    Some(machine)
}

fn step_of(machine: &mut Machine<FlatStore<Global>, Global>, hart: u32) -> Option<()> {
    if hart as usize >= machine.harts() {
        return None;
    }
    machine
        .step(Choice {
            hart,
            refuse: false,
        })
        .ok()
}

// The ends of all lists.
fn by_force(alloc: Global, row: &Row) -> Ends {
    let mut ends = Ends::none();
    for code in 0..1u32 << row.choices.min(31) {
        if let Some(machine) = forced(alloc, row, code) {
            ends = ends.with(&machine);
        }
    }
    ends
}

#[test]
fn schedules_are_all_lists_with_few_preemptions(rt: HostRuntime) {
    for row in &ROWS {
        let preemptions = row.preemptions;
        assert!(rt;
            walked(rt.alloc(), row) == Some(by_force(rt.alloc(), row)),
            "{preemptions}"
        );
    }
}
