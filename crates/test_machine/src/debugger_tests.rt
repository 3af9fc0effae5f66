//! Tests what no clause says: how far moves go and what they cost, and what is told of a long
//! start.
use byte_io::{Progress, Unheard};
use debug_session::{Debugger, MoveFault, WatchKind, byte_at};
use machine::{Choice, Inputs};
use std::alloc::Global;
use test_images::{STORES_INPUT, writable_program};

fn turn(hart: u32) -> Choice {
    Choice {
        hart,
        refuse: false,
    }
}

// `count` choices, of the two harts in turn.
fn turns(alloc: Global, count: u32) -> Option<Vec<Choice, Global>> {
    let mut choices = Vec::new(alloc);
    for i in 0..count {
        choices.push(turn(i % 2)).ok()?;
    }
    Some(choices)
}

// A debugger of the program with two harts, each of which stores its own input, at the start of
// `count` choices.
fn begin<P: Progress>(alloc: Global, count: u32, progress: &mut P) -> Option<Debugger<Global>> {
    let choices = turns(alloc, count)?;
    let image = writable_program(alloc, &STORES_INPUT).ok()?;
    let inputs = Inputs::new(&[7, 9]).ok()?;
    if !choices.iter().all(|choice| choice.hart < 2) {
        return None;
    }
    Debugger::new_with_progress(alloc, image, inputs, choices, progress).ok()
}

// A debugger at position 600 of a thousand choices, with a breakpoint at the store and the stored
// word watched.
fn placed(alloc: Global) -> Option<Debugger<Global>> {
    let mut debugger = begin(alloc, 1000, &mut Unheard)?;
    debugger.add_break(0x10004).ok()?;
    debugger.add_watch(WatchKind::Change, 0x11005).ok()?;
    debugger.goto(alloc, 600).ok()?;
    Some(debugger)
}

// Moves, each by its name in the debugger.
#[derive(Clone, Copy)]
enum Call {
    Goto(usize),
    Forward(usize),
    Back(usize),
    GoBack,
}

// Makes a move.
fn make(alloc: Global, debugger: &mut Debugger<Global>, call: Call) -> Result<(), MoveFault> {
    match call {
        Call::Goto(k) => debugger.goto(alloc, k),
        Call::Forward(n) => debugger.forward(alloc, n),
        Call::Back(n) => debugger.back(alloc, n),
        Call::GoBack => match debugger.go_back(alloc) {
            Ok(_) => Ok(()),
            Err(_) => Err(MoveFault::Memory),
        },
    }
}

// A move through a thousand choices, its fault, and the position after it, the cost, and the byte
// that the harts store: 7 by the third choice, 9 by the fourth.
struct Move {
    call: Call,
    fault: Option<MoveFault>,
    position: usize,
    cost: u64,
    byte: u8,
}

// Moves one after the other. The last one is past the end.
#[rattlefmt::skip]
static MOVES: [Move; 13] = [
    Move { call: Call::Goto(999), fault: None, position: 999, cost: 231, byte: 9 },
    Move { call: Call::Back(999), fault: None, position: 0, cost: 0, byte: 0 },
    Move { call: Call::Goto(256), fault: None, position: 256, cost: 0, byte: 9 },
    Move { call: Call::Back(254), fault: None, position: 2, cost: 2, byte: 0 },
    Move { call: Call::Forward(253), fault: None, position: 255, cost: 255, byte: 9 },
    Move { call: Call::Forward(1), fault: None, position: 256, cost: 0, byte: 9 },
    Move { call: Call::Goto(511), fault: None, position: 511, cost: 255, byte: 9 },
    Move { call: Call::Back(508), fault: None, position: 3, cost: 3, byte: 7 },
    Move { call: Call::Forward(509), fault: None, position: 512, cost: 0, byte: 9 },
    Move { call: Call::Goto(1000), fault: None, position: 1000, cost: 232, byte: 9 },
    Move { call: Call::GoBack, fault: None, position: 4, cost: 1003, byte: 9 },
    Move { call: Call::GoBack, fault: None, position: 3, cost: 6, byte: 7 },
    Move { call: Call::Goto(1001), fault: Some(MoveFault::PastEnd), position: 3, cost: 6, byte: 7 },
];

// Makes a move, and returns whether it is as its row says.
fn is_moved(alloc: Global, debugger: &mut Debugger<Global>, row: &Move) -> bool {
    make(alloc, debugger, row.call).err() == row.fault
        && debugger.position() == row.position
        && debugger.cost() == row.cost
        && byte_at(debugger.machine().store(), 0x11006) == row.byte
}

// Number of moves that are as their rows say, up to the first that isn't.
fn count_moved(alloc: Global, debugger: &mut Debugger<Global>) -> usize {
    for (number, row) in MOVES.iter().enumerate() {
        if !is_moved(alloc, debugger, row) {
            return number;
        }
    }
    MOVES.len()
}

// The same from the far place.
fn count_from_far(alloc: Global) -> Option<usize> {
    let mut debugger = placed(alloc)?;
    Some(count_moved(alloc, &mut debugger))
}

#[test]
fn no_move_to_a_position_takes_more_than_255_steps(rt: HostRuntime) {
    assert!(rt; count_from_far(rt.alloc()) == Some(MOVES.len()));
}

// The number of reports of progress, and the last of them.
#[derive(Clone, Copy, PartialEq, Eq)]
struct Heard {
    times: u64,
    done: u64,
    all: u64,
}

impl Progress for Heard {
    fn choices_done(&mut self, done: u64, all: u64) {
        self.times = self.times.saturating_add(1);
        self.done = done;
        self.all = all;
    }
}

// The reports of a start with `count` choices; `None` if it fails.
fn heard_of(alloc: Global, count: u32) -> Option<Heard> {
    let mut heard = Heard {
        times: 0,
        done: 0,
        all: 0,
    };
    begin(alloc, count, &mut heard)?;
    Some(heard)
}

// Numbers of choices, and the reports of a start with them.
#[rattlefmt::skip]
const STARTS: [(u32, Heard); 4] = [
    (0, Heard { times: 0, done: 0, all: 0 }),
    (1000, Heard { times: 0, done: 0, all: 0 }),
    (1_048_575, Heard { times: 0, done: 0, all: 0 }),
    (1_048_876, Heard { times: 2, done: 1_048_876, all: 1_048_876 }),
];

#[test]
fn a_long_start_is_told_of(rt: HostRuntime) {
    for (count, heard) in &STARTS {
        assert!(rt;
            heard_of(rt.alloc(), *count) == Some(*heard),
            "{count} choices"
        );
    }
}
