//! Tests that out of memory is reported, nothing has changed then, and the same call succeeds once
//! memory is back. Also choices as histories.
ghost use Rattle.bank_merge.specs.Logs.{AreOfOne};

use crate::checked::checked;
use crate::hand_tests::{FIRST, SECOND, segment};
use crate::merging::{ByHand, by_hand};
use crate::programs::STORES;
use bank_hart_log::HartLog;
use bank_memory::Bank;
use bank_merge::{MergeFault, merge};
use history::{Entry, history_of, print_history};
use image::Image;
use machine::Choice;
use object_library::Kind;
use std::alloc::{AllocError, Allocator, Global};
use std::sync::Wait;
use std::thread::Threads;
use test_images::{PROGRAM_START, Program, one_value, program_image};
use test_refusing::{Call, Refusing, Shortage, tried};
use thread_gate::OpenGate;

const FIRST_HART: Choice = Choice {
    hart: 0,
    refuse: false,
};

const SECOND_HART: Choice = Choice {
    hart: 1,
    refuse: false,
};

const SECOND_REFUSED: Choice = Choice {
    hart: 1,
    refuse: true,
};

// Choices of two harts, one of them refused.
const CHOICES: [Choice; 4] = [FIRST_HART, SECOND_REFUSED, SECOND_HART, FIRST_HART];

// Their history.
const HISTORY: &str = "0+0 1+0! 1+0 0+0\n";

// The choices that a history stands for, one by one.
fn choices_of<A: Allocator>(alloc: A, history: &[Entry]) -> Option<Vec<Choice, A>> {
    let mut choices = Vec::new(alloc);
    for entry in history {
        for _ in 0..entry.local {
            choices
                .push(Choice {
                    hart: entry.hart,
                    refuse: false,
                })
                .ok()?;
        }
        choices
            .push(Choice {
                hart: entry.hart,
                refuse: entry.refuse,
            })
            .ok()?;
    }
    Some(choices)
}

// Whether the history of the choices stands for them, and is printed so.
fn is_their_history<A: Allocator + Copy>(alloc: A) -> Result<bool, AllocError> {
    let history = history_of(alloc, &CHOICES)?;
    let text = print_history(alloc, &history)?;
    let Some(choices) = choices_of(alloc, &history) else {
        return Err(AllocError);
    };
    Ok(text.as_str() == HISTORY && choices.as_slice() == CHOICES.as_slice())
}

#[test]
fn choices_are_their_history(rt: HostRuntime) {
    assert!(rt; is_their_history(rt.alloc()) == Ok(true));
}

// Adds a segment to a new log. Each of these calls returns whether its result is right, and `None`
// if it was out of memory and nothing has changed.
fn add_segment<A: Allocator>(log: &mut HartLog<A>) -> Option<bool> {
    match log.add(segment(1, Some(FIRST))) {
        Ok(()) => Some(log.segments().len() == 1 && log.slot().pc == PROGRAM_START + 4),
        Err(bank_hart_log::AddFault::Mismatch) => Some(false),
        Err(bank_hart_log::AddFault::Memory) => {
            let is_as_before = log.segments().is_empty() && log.slot().pc == PROGRAM_START;
            if is_as_before { None } else { Some(false) }
        }
    }
}

// Adds an access to a new bank.
fn add_access<A: Allocator + Clone>(bank: &mut Bank<A>) -> Option<bool> {
    match bank.add(FIRST) {
        Ok(()) => Some(bank.log().len() == 1 && bank.bytes(0) == FIRST.after),
        Err(bank_memory::AddFault::Mismatch) => Some(false),
        Err(bank_memory::AddFault::Memory) => {
            let is_as_before = bank.log().is_empty() && bank.bytes(0) == FIRST.before;
            if is_as_before { None } else { Some(false) }
        }
    }
}

// Merges logs of two segments.
fn merge_both<A: Allocator + Copy>(alloc: A, hand: &ByHand<A>) -> Option<bool>
    requires { AreOfOne hand.now.logs.items hand.now.banks.items }
{
    match merge(alloc, &hand.logs, &hand.banks) {
        Ok(choices) => Some(choices.as_slice() == [FIRST_HART; 2].as_slice()),
        Err(MergeFault::Unmatched | MergeFault::OutOfOrder) => Some(false),
        Err(MergeFault::Memory) => None,
    }
}

fn make_history<A: Allocator>(alloc: A) -> Option<bool> {
    match history_of(alloc, &CHOICES) {
        Ok(history) => Some(history.len() == 4),
        Err(AllocError) => None,
    }
}

// Runs an object, and merges the run.
fn run_object<A: Allocator + Copy + Send + Sync, R: Threads + Wait + Sync>(
    rt: &R,
    alloc: A,
) -> Option<bool> {
    let program = Program::Object(Kind::LrSc);
    match checked(rt, alloc, program, &[3, 5], 100, &[(0, 7)], &OpenGate) {
        Ok(done) => Some(one_value(&done.harts).is_some()),
        Err(lack) => {
            if lack.is_of_memory() {
                None
            } else {
                Some(false)
            }
        }
    }
}

// The result of a call that was refused memory, by the same call again. Once memory is back, it
// must succeed.
fn told_by<A: Allocator>(alloc: A, again: Option<bool>) -> Result<bool, AllocError> {
    match again {
        Some(true) => Err(AllocError),
        Some(false) => Ok(false),
        None => {
            if Box::new(alloc, 7u64).is_ok() {
                Ok(false)
            } else {
                Err(AllocError)
            }
        }
    }
}

// Adds a segment to the log of a hart, again if out of memory.
fn ask_segment<A: Allocator + Copy>(alloc: A, image: &Image<A>) -> Result<bool, AllocError> {
    let mut log = HartLog::new(alloc, image, &[7], 0);
    match add_segment(&mut log) {
        Some(is_right) => Ok(is_right),
        None => told_by(alloc, add_segment(&mut log)),
    }
}

// Adds an access to a bank.
fn ask_access<A: Allocator + Copy>(alloc: A, image: &Image<A>) -> Result<bool, AllocError> {
    let mut bank = Bank::new(alloc, image, &[7], 0);
    match add_access(&mut bank) {
        Some(is_right) => Ok(is_right),
        None => told_by(alloc, add_access(&mut bank)),
    }
}

// Merges logs.
fn ask_merging<A: Allocator + Copy>(alloc: A, image: &Image<A>) -> Result<bool, AllocError> {
    let first = segment(1, Some(FIRST));
    let second = segment(2, Some(SECOND));
    let Ok(hand) = by_hand(alloc, image, &[7], first, second, &[FIRST, SECOND]) else {
        return Err(AllocError);
    };
    match merge_both(alloc, &hand) {
        Some(is_right) => Ok(is_right),
        None => told_by(alloc, merge_both(alloc, &hand)),
    }
}

// Makes a history.
fn ask_history<A: Allocator + Copy>(alloc: A) -> Result<bool, AllocError> {
    match make_history(alloc) {
        Some(is_right) => Ok(is_right),
        None => told_by(alloc, make_history(alloc)),
    }
}

// Runs an object.
fn ask_run<A: Allocator + Copy + Send + Sync, R: Threads + Wait + Sync>(
    rt: &R,
    alloc: A,
) -> Result<bool, AllocError> {
    match run_object(rt, alloc) {
        Some(is_right) => Ok(is_right),
        None => told_by(alloc, run_object(rt, alloc)),
    }
}

// A call that asks for memory.
#[derive(Clone, Copy)]
enum Asking {
    Segment,
    Access,
    Merging,
    History,
}

impl Call for Asking {
    fn answer<A: Allocator + Copy>(&self, alloc: A, _host: Global) -> Result<bool, AllocError> {
        let image = program_image(alloc, STORES)?;
        match self {
            Asking::Segment => ask_segment(alloc, &image),
            Asking::Access => ask_access(alloc, &image),
            Asking::Merging => ask_merging(alloc, &image),
            Asking::History => ask_history(alloc),
        }
    }
}

#[rattlefmt::skip]
const ASKING: [Asking; 4] = [Asking::Segment, Asking::Access, Asking::Merging, Asking::History];

#[test]
fn each_call_tells_want_of_memory(rt: HostRuntime) {
    for call in &ASKING {
        assert!(rt; tried(rt.alloc(), call).is_ok());
    }
}

// What is wrong with a call whose request after a number of others is refused.
#[derive(Clone, Copy, PartialEq, Eq)]
enum Wrong {
    // Out of memory isn't reported, or is reported where no request was refused.
    Behind(u64),
    // The call requests memory without end.
    Endless,
}

// What is wrong with a call whose requests are refused in turn, until none is left to refuse.
fn wrong_in_runs<R: Threads + Wait + Sync>(
    rt: &R,
    host: Global,
    shortage: Shortage,
) -> Result<(), Wrong> {
    for passed in 0..1000u64 {
        let heap = Refusing::of(host, passed, shortage);
        let is_right = match ask_run(rt, &heap) {
            Ok(is_right) => is_right,
            Err(AllocError) => heap.refused(),
        };
        if !is_right {
            return Err(Wrong::Behind(passed));
        }
        if !heap.refused() {
            return Ok(());
        }
    }
    Err(Wrong::Endless)
}

#[test]
fn runs_tell_want_of_memory(rt: HostRuntime) {
    for shortage in Shortage::BOTH {
        assert!(rt; wrong_in_runs(&rt, rt.alloc(), shortage) == Ok(()));
    }
}
