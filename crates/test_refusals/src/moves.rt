//! Calls of a debugger, each at one place: how it is made, its moves, its breakpoints and its
//! commands.
use debug_session::{Debugger, MoveFault, Stop, WatchHit, WatchKind};
use debug_text::{Answer, DebugFault, command};
use elf_read::Symbol;
use machine::{Choice, Inputs};
use std::alloc::{AllocError, Allocator, Global};
use test_images::{STORES_INPUT, writable_program};
use test_refusing::{Call, tried};

// A call, behind three of six choices; those with `Far` behind 600 of a thousand, with checkpoints
// between.
#[derive(Clone, Copy)]
enum MoveCall {
    At,
    Goto,
    Forward,
    Back,
    AddBreak,
    AddWatch,
    GoOn,
    GoBack,
    Steps,
    FarGoto,
    FarForward,
    FarBack,
    FarGoBack,
    Command(&'static str, &'static str),
}

// The answer of `help`.
const HELP: &str = "\
help         lists the commands\n\
where        shows the position\n\
goto K       goes to step K\n\
forward [N]  goes N steps forward, or 1\n\
back [N]     goes N steps back, or 1\n\
step H       goes behind the next choice of hart H\n\
break A      sets a breakpoint at the address A\n\
watch A      watches the word that holds A for changes\n\
rwatch A     watches it for reads\n\
awatch A     watches it for reads and writes\n\
delete A     removes the breakpoint and the watches at the address A\n\
go           goes to the next breakpoint or watch, or to the end\n\
rgo          goes back to the last one, or to the start\n\
steps A B    shows the choices from A to B - 1\n\
list [H]     shows the instructions around the next one of hart H, or of the next choice\n\
regs H       shows the state and the registers of hart H\n\
regs H R..   shows these registers of hart H alone, as regs 0 a0 pc\n\
mem A N      shows N words of memory from the one that holds A on\n\
quit         ends\n";

// The answer of `list` behind three choices, of which the second hart has taken one.
const LISTED: &str = "\
hart 1 running pc 00010004\n   \
00010000 lui t0, 0x11\n\
=> 00010004 sb a1, 6(t0)\n   \
00010008 jal zero, 0x00010008\n   \
0001000c .word 0x00000000\n   \
00010010 .word 0x00000000\n   \
00010014 .word 0x00000000\n   \
00010018 .word 0x00000000\n";

// All of them, with a command of each kind and its answer.
#[rattlefmt::skip]
const CALLS: [(&str, MoveCall); 29] = [
    ("at", MoveCall::At),
    ("goto", MoveCall::Goto),
    ("forward", MoveCall::Forward),
    ("back", MoveCall::Back),
    ("add_break", MoveCall::AddBreak),
    ("add_watch", MoveCall::AddWatch),
    ("go_on", MoveCall::GoOn),
    ("go_back", MoveCall::GoBack),
    ("steps", MoveCall::Steps),
    ("far goto", MoveCall::FarGoto),
    ("far forward", MoveCall::FarForward),
    ("far back", MoveCall::FarBack),
    ("far go_back", MoveCall::FarGoBack),
    ("help", MoveCall::Command("help", HELP)),
    ("where", MoveCall::Command("where", "step 3 of 6\n")),
    ("goto 5", MoveCall::Command("goto 5", "step 5 of 6\n")),
    ("forward", MoveCall::Command("forward", "step 4 of 6\n")),
    ("back", MoveCall::Command("back", "step 2 of 6\n")),
    ("step 0", MoveCall::Command("step 0", "step 5 of 6\n")),
    ("break", MoveCall::Command("break 0x10008", "break 00010008\n")),
    ("watch", MoveCall::Command("watch 0x11005", "watch 00011004\n")),
    ("rwatch", MoveCall::Command("rwatch 0x11005", "rwatch 00011004\n")),
    ("awatch", MoveCall::Command("awatch 0x11005", "awatch 00011004\n")),
    ("delete", MoveCall::Command("delete 0x10008", "delete 00010008\n")),
    ("go", MoveCall::Command("go", "watch 00011004\nstep 4 of 6\n")),
    ("rgo", MoveCall::Command("rgo", "watch 00011004\nstep 2 of 6\n")),
    ("steps 1 2", MoveCall::Command("steps 1 2", "1 h0 00010004 sb a1, 6(t0)\n")),
    ("list", MoveCall::Command("list", LISTED)),
    ("mem", MoveCall::Command("mem 0x11004 1", "00011004 00070000\n")),
];

fn turn(hart: u32) -> Choice {
    Choice {
        hart,
        refuse: false,
    }
}

// So many choices, each hart twice in turn.
pub(crate) fn turns<A: Allocator + Copy>(
    alloc: A,
    count: u32,
) -> Result<Vec<Choice, A>, AllocError> {
    let mut choices = Vec::new(alloc);
    for number in 0..count {
        choices.push(turn(number / 2 % 2))?;
    }
    Ok(choices)
}

// A debugger of two harts, of which each stores its own input.
fn begin<A: Allocator + Copy>(
    alloc: A,
    choices: Vec<Choice, A>,
) -> Result<Debugger<A>, AllocError> {
    let image = writable_program(alloc, &STORES_INPUT)?;
    let Ok(inputs) = Inputs::new(&[7, 9]) else {
        return Err(AllocError);
    };
    if !choices.iter().all(|choice| choice.hart < 2) {
        return Err(AllocError);
    }
    Debugger::new(alloc, image, inputs, choices)
}

// Where a call is made: how many choices there are, behind how many, and what the move there has
// cost.
#[derive(Clone, Copy)]
struct Place {
    choices: u32,
    position: usize,
    cost: u64,
}

const NEAR: Place = Place {
    choices: 6,
    position: 3,
    cost: 3,
};

// 88 choices behind a checkpoint.
const FAR: Place = Place {
    choices: 1000,
    position: 600,
    cost: 88,
};

fn place_of(call: MoveCall) -> Place {
    match call {
        MoveCall::FarGoto | MoveCall::FarForward | MoveCall::FarBack | MoveCall::FarGoBack => FAR,
        _ => NEAR,
    }
}

// A debugger at a place, with a breakpoint at the store and the stored word watched.
fn placed<A: Allocator + Copy>(alloc: A, place: Place) -> Result<Debugger<A>, AllocError> {
    let choices = turns(alloc, place.choices)?;
    let mut debugger = begin(alloc, choices)?;
    debugger.add_break(0x0001_0004)?;
    debugger.add_watch(WatchKind::Change, 0x0001_1005)?;
    match debugger.goto(alloc, place.position) {
        Ok(()) => Ok(debugger),
        Err(_) => Err(AllocError),
    }
}

// Whether a debugger stands at a place to which it has moved, and its first hart at the jump.
fn is_at<A: Allocator + Copy>(debugger: &Debugger<A>, place: Place) -> bool {
    let pc = debugger.machine().ends().first().map(|hart| hart.pc);
    debugger.position() == place.position
        && debugger.cost() == place.cost
        && pc == Some(0x0001_0008)
}

impl Call for MoveCall {
    fn answer<A: Allocator + Copy>(&self, alloc: A, _host: Global) -> Result<bool, AllocError> {
        let place = place_of(*self);
        let mut debugger = placed(alloc, place)?;
        match make(alloc, &mut debugger, *self) {
            Ok(is_full) => Ok(is_full),
            Err(MoveFault::Memory) if is_at(&debugger, place) => {
                answer_of_second(make(alloc, &mut debugger, *self))
            }
            Err(_) => Ok(false),
        }
    }
}

// Whether a call that was refused memory gives its full answer when it is made again, or is refused
// memory again.
fn answer_of_second(made: Result<bool, MoveFault>) -> Result<bool, AllocError> {
    match made {
        Ok(true) | Err(MoveFault::Memory) => Err(AllocError),
        _ => Ok(false),
    }
}

// Makes a call: whether it gave its full answer.
fn make<A: Allocator + Copy>(
    alloc: A,
    debugger: &mut Debugger<A>,
    call: MoveCall,
) -> Result<bool, MoveFault> {
    match call {
        MoveCall::At => is_machine_at(alloc, debugger),
        MoveCall::Goto | MoveCall::FarGoto => goes_to(alloc, debugger),
        MoveCall::Forward => goes_forward(alloc, debugger, 2, 5),
        MoveCall::Back => goes_back(alloc, debugger, 2, 1),
        MoveCall::AddBreak => is_added(debugger.add_break(0x0001_0008)),
        MoveCall::AddWatch => is_added(debugger.add_watch(WatchKind::Change, 0x0001_1000)),
        MoveCall::GoOn => is_at_watch(debugger.go_on(alloc)),
        MoveCall::GoBack | MoveCall::FarGoBack => is_at_watch(debugger.go_back(alloc)),
        MoveCall::Steps => has_steps(alloc, debugger),
        MoveCall::FarForward => goes_forward(alloc, debugger, 400, 1000),
        MoveCall::FarBack => goes_back(alloc, debugger, 599, 1),
        MoveCall::Command(line, wanted) => is_answered(alloc, debugger, line, wanted),
    }
}

// Whether the first hart of the machine behind five choices stands at the jump.
fn is_machine_at<A: Allocator + Copy>(
    alloc: A,
    debugger: &mut Debugger<A>,
) -> Result<bool, MoveFault> {
    let machine = debugger.at(alloc, 5)?;
    Ok(machine.ends().first().map(|hart| hart.pc) == Some(0x0001_0008))
}

fn goes_to<A: Allocator + Copy>(alloc: A, debugger: &mut Debugger<A>) -> Result<bool, MoveFault> {
    debugger.goto(alloc, 1)?;
    Ok(debugger.position() == 1)
}

fn goes_forward<A: Allocator + Copy>(
    alloc: A,
    debugger: &mut Debugger<A>,
    count: usize,
    position: usize,
) -> Result<bool, MoveFault> {
    debugger.forward(alloc, count)?;
    Ok(debugger.position() == position)
}

fn goes_back<A: Allocator + Copy>(
    alloc: A,
    debugger: &mut Debugger<A>,
    count: usize,
    position: usize,
) -> Result<bool, MoveFault> {
    debugger.back(alloc, count)?;
    Ok(debugger.position() == position)
}

fn has_steps<A: Allocator + Copy>(alloc: A, debugger: &Debugger<A>) -> Result<bool, MoveFault> {
    let views = debugger.steps(alloc, 1, 3)?;
    Ok(views.len() == 2)
}

fn is_added(added: Result<(), AllocError>) -> Result<bool, MoveFault> {
    match added {
        Ok(()) => Ok(true),
        Err(AllocError) => Err(MoveFault::Memory),
    }
}

fn is_at_watch(found: Result<Option<Stop>, AllocError>) -> Result<bool, MoveFault> {
    let watch = Stop::Watch(WatchHit {
        kind: WatchKind::Change,
        address: 0x0001_1004,
    });
    match found {
        Ok(stop) => Ok(stop == Some(watch)),
        Err(AllocError) => Err(MoveFault::Memory),
    }
}

fn is_answered<A: Allocator + Copy>(
    alloc: A,
    debugger: &mut Debugger<A>,
    line: &str,
    wanted: &str,
) -> Result<bool, MoveFault> {
    let symbols: Vec<Symbol<A>, A> = Vec::new(alloc);
    match command(alloc, debugger, &symbols, line) {
        Ok(Answer::Text(text)) => Ok(text.as_str() == wanted),
        Ok(Answer::Quit) => Ok(false),
        Err(DebugFault::Memory) => Err(MoveFault::Memory),
        Err(_) => Ok(false),
    }
}

// The first call that doesn't report each refused request.
fn first_wrong(alloc: Global, calls: &[(&'static str, MoveCall)]) -> Option<&'static str> {
    'calls: for (name, call) in calls {
        if tried(alloc, call) != Ok(()) {
            return Some(*name);
        }
    }
    None
}

#[test]
fn moves_tell_want_of_memory(rt: HostRuntime) {
    if let Some(name) = first_wrong(rt.alloc(), &CALLS) {
        assert!(rt; false, "{name}");
    }
}
