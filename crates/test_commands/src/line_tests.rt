//! Tests what no clause says: example lines and lists.
use crate::order_texts::order_text;
use cli_args::{LineFault, read_inputs, read_number, read_run};
use cli_orders::{Order, read_line, read_plan};
use cli_report::read_object;
use object_library::{KIND_NAMES, Kind};
use std::alloc::Global;

// Texts, and their inputs; `None` if invalid.
const INPUTS: [(&str, Option<&[u32]>); 16] = [
    ("7,9", Some(&[7, 9])),
    ("0", Some(&[0])),
    ("4294967295", Some(&[4_294_967_295])),
    ("007,0000000000000000000000009", Some(&[7, 9])),
    ("1,2,3,4,5,6,7,8,9", Some(&[1, 2, 3, 4, 5, 6, 7, 8, 9])),
    ("", None),
    (",", None),
    ("7,", None),
    (",7", None),
    ("7,,9", None),
    ("4294967296", None),
    ("18446744073709551616", None),
    ("+7", None),
    ("-7", None),
    ("0x7", None),
    ("7;9", None),
];

// Whether a text has these inputs, or is invalid if none are expected.
fn has_inputs(alloc: Global, text: &str, wanted: Option<&[u32]>) -> bool {
    match read_inputs(alloc, text) {
        Ok(inputs) => match wanted {
            Some(wanted) => inputs.as_slice() == wanted,
            None => false,
        },
        Err(LineFault::BadInputs) => wanted.is_none(),
        Err(_) => false,
    }
}

#[test]
fn inputs_are_read(rt: HostRuntime) {
    for (text, wanted) in &INPUTS {
        assert!(rt; has_inputs(rt.alloc(), text, *wanted), "{text}");
    }
}

// Lines, and what is read of each: its command and the texts of its arguments, by their names. No
// proof goes over a table of all of them.
#[rattlefmt::skip]
static LINES: [(&str, &str); 67] = [
    ("rvcons asm a.s", "asm IN=a.s"),
    ("rvcons asm --out o a.s b.s", "asm out=o IN=a.s IN=b.s"),
    ("rvcons asm b.s a.s --out=o", "asm out=o IN=b.s IN=a.s"),
    ("rvcons asm -o o a.s", "asm out=o IN=a.s"),
    ("rvcons list p", "list FILE=p"),
    ("rvcons list --explain always p", "list FILE=p"),
    ("rvcons list p --explain=never", "list FILE=p"),
    ("rvcons info p", "info FILE=p"),
    ("rvcons info --by-address p", "info by-address=yes FILE=p"),
    ("rvcons info --json p", "info json=yes FILE=p"),
    ("rvcons info p --json --by-address", "info by-address=yes json=yes FILE=p"),
    ("rvcons run p --inputs 7,9 --choices c", "run FILE=p inputs=7,9 choices=c"),
    ("rvcons run --choices c --inputs 7,9 p", "run FILE=p inputs=7,9 choices=c"),
    ("rvcons run --choices=c p --inputs=7,9", "run FILE=p inputs=7,9 choices=c"),
    ("rvcons run --hex p --inputs 7,9 --choices c", "run hex=yes FILE=p inputs=7,9 choices=c"),
    ("rvcons run p --inputs 7,9 --choices c --rule k", "run FILE=p inputs=7,9 choices=c rule=k"),
    ("rvcons run p --inputs 7,9 --choices c --must-exit",
        "run FILE=p inputs=7,9 choices=c must-exit=yes"),
    ("rvcons run p --inputs 7,9 --hangs --choices c", "run FILE=p inputs=7,9 choices=c hangs=yes"),
    ("rvcons run p --inputs 7,9 --choices c --never-both a..b",
        "run FILE=p inputs=7,9 choices=c never-both=a..b"),
    ("rvcons run p --inputs 7,9 --always x --choices c",
        "run FILE=p inputs=7,9 choices=c always=x"),
    ("rvcons run p --json --inputs 7,9 --choices c", "run FILE=p inputs=7,9 choices=c json=yes"),
    ("rvcons run p --must-exit --inputs 7,9 --rule k --choices c --hex",
        "run hex=yes FILE=p inputs=7,9 choices=c rule=k must-exit=yes"),
    ("rvcons run p --inputs 7,9 --list 0*3", "run FILE=p inputs=7,9 list=0*3"),
    ("rvcons run p --inputs 7,9 --choices -", "run FILE=p inputs=7,9 choices=-"),
    ("rvcons run p --inputs 7,9 --seed 5 --steps 3", "run FILE=p inputs=7,9 seed=5 steps=3"),
    ("rvcons run --refusals r --schedule d --steps 3 --seed 5 p --inputs 7,9",
        "run FILE=p inputs=7,9 seed=5 steps=3 schedule=d refusals=r"),
    ("rvcons run --within w --schedule d --steps 3 --seed 5 p --inputs 7,9",
        "run FILE=p inputs=7,9 seed=5 steps=3 schedule=d within=w"),
    ("rvcons run p --inputs 7,9 --turns 3", "run FILE=p inputs=7,9 turns=3"),
    ("rvcons shrink p --inputs 7,9 --history h", "shrink FILE=p inputs=7,9 history=h"),
    ("rvcons trace p --inputs 7,9 --seed 5 --steps 3", "trace FILE=p inputs=7,9 seed=5 steps=3"),
    ("rvcons debug p --inputs 7,9 --turns 3", "debug FILE=p inputs=7,9 turns=3"),
    ("rvcons debug p --inputs 7,9 --choices c", "debug FILE=p inputs=7,9 choices=c"),
    ("rvcons debug p --inputs 7,9 --list=0", "debug FILE=p inputs=7,9 list=0"),
    ("rvcons gdb p --inputs 7,9 --choices c", "gdb FILE=p inputs=7,9 choices=c"),
    ("rvcons threads p --inputs 7,9 --budget 5", "threads FILE=p inputs=7,9 budget=5"),
    ("rvcons threads p --inputs 7,9 --budget 5 --refuse 0:7",
        "threads FILE=p inputs=7,9 budget=5 refuse=0:7"),
    ("rvcons threads p --inputs 7,9 --budget 5 --history h",
        "threads FILE=p inputs=7,9 budget=5 history=h"),
    ("rvcons threads p --inputs 7,9 --budget 5 --rule k",
        "threads FILE=p inputs=7,9 budget=5 rule=k"),
    ("rvcons threads p --inputs 7,9 --budget 5 --banked",
        "threads FILE=p inputs=7,9 budget=5 banked=yes"),
    ("rvcons threads p --inputs 7,9 --budget 5 --must-exit",
        "threads FILE=p inputs=7,9 budget=5 must-exit=yes"),
    ("rvcons threads p --inputs 7,9 --budget 5 --total 8",
        "threads FILE=p inputs=7,9 budget=5 total=8"),
    ("rvcons threads p --banked --must-exit --rule k --history h --refuse 0:7 --total 8 --budget 5 --inputs 7,9",
        "threads FILE=p inputs=7,9 budget=5 total=8 refuse=0:7 history=h rule=k must-exit=yes banked=yes"),
    ("rvcons replay p --inputs 7,9 --history h", "replay FILE=p inputs=7,9 history=h"),
    ("rvcons replay p --inputs 7,9 --history h --rule k",
        "replay FILE=p inputs=7,9 history=h rule=k"),
    ("rvcons replay p --must-exit --inputs 7,9 --history h",
        "replay FILE=p inputs=7,9 history=h must-exit=yes"),
    ("rvcons lib swap", "lib K=swap"),
    ("rvcons campaign p --inputs 7,9 --first 1 --count 2 --steps 3",
        "campaign FILE=p inputs=7,9 first=1 count=2 steps=3"),
    ("rvcons campaign p --inputs 7,9 --first 1 --count 2 --steps 3 --rule k",
        "campaign FILE=p inputs=7,9 first=1 count=2 steps=3 rule=k"),
    ("rvcons campaign p --inputs 7,9 --first 1 --count 2 --steps 3 --failures",
        "campaign FILE=p inputs=7,9 first=1 count=2 steps=3 failures=yes"),
    ("rvcons campaign p --inputs 7,9 --first 1 --count 2 --steps 3 --until-failure",
        "campaign FILE=p inputs=7,9 first=1 count=2 steps=3 until-failure=yes"),
    ("rvcons campaign p --inputs 7,9 --first 1 --count 2 --steps 3 --summary",
        "campaign FILE=p inputs=7,9 first=1 count=2 steps=3 summary=yes"),
    ("rvcons campaign p --inputs 7,9 --first 1 --count 2 --steps 3 --outcomes",
        "campaign FILE=p inputs=7,9 first=1 count=2 steps=3 outcomes=yes"),
    ("rvcons campaign p --inputs 7,9 --first 1 --count 2 --steps 3 --by-cause",
        "campaign FILE=p inputs=7,9 first=1 count=2 steps=3 by-cause=yes"),
    ("rvcons campaign p --inputs 7,9 --first 1 --count 2 --steps 3 --schedule d",
        "campaign FILE=p inputs=7,9 first=1 count=2 steps=3 schedule=d"),
    ("rvcons campaign p --inputs 7,9 --first 1 --count 2 --steps 3 --refusals r",
        "campaign FILE=p inputs=7,9 first=1 count=2 steps=3 refusals=r"),
    ("rvcons campaign p --inputs 7,9 --first 1 --count 2 --steps 3 --must-exit",
        "campaign FILE=p inputs=7,9 first=1 count=2 steps=3 must-exit=yes"),
    ("rvcons campaign p --inputs 7,9 --first 1 --count 2 --steps 3 --hangs",
        "campaign FILE=p inputs=7,9 first=1 count=2 steps=3 hangs=yes"),
    ("rvcons campaign p --inputs 7,9 --first 1 --count 2 --steps 3 --never-both a..b",
        "campaign FILE=p inputs=7,9 first=1 count=2 steps=3 never-both=a..b"),
    ("rvcons campaign p --inputs 7,9 --first 1 --count 2 --steps 3 --always x",
        "campaign FILE=p inputs=7,9 first=1 count=2 steps=3 always=x"),
    ("rvcons campaign p --inputs 7,9 --first 1 --count 2 --steps 3 --word a,b",
        "campaign FILE=p inputs=7,9 first=1 count=2 steps=3 word=a,b"),
    ("rvcons campaign p --inputs 7,9 --first 1 --count 2 --steps 3 --jobs 4",
        "campaign FILE=p inputs=7,9 first=1 count=2 steps=3 jobs=4"),
    ("rvcons campaign p --inputs 7,9 --first 1 --count 2 --steps 3 --seconds 60",
        "campaign FILE=p inputs=7,9 first=1 count=2 steps=3 seconds=60"),
    ("rvcons campaign p --inputs 7,9 --first 1 --count 2 --steps 3 --json",
        "campaign FILE=p inputs=7,9 first=1 count=2 steps=3 json=yes"),
    ("rvcons campaign p --inputs 7,9 --first 1 --count 2 --steps 3 --within w",
        "campaign FILE=p inputs=7,9 first=1 count=2 steps=3 within=w"),
    ("rvcons campaign --steps 3 --count 2 --first 1 --inputs 7 --refusals r --schedule d p",
        "campaign FILE=p inputs=7 first=1 count=2 steps=3 schedule=d refusals=r"),
    ("rvcons campaign p --inputs 7,9 --steps 3 --preemptions 2",
        "campaign FILE=p inputs=7,9 steps=3 preemptions=2"),
    ("rvcons campaign p --choices-of 4 --inputs 7,9 --first 1 --count 2 --steps 3 --preemptions 2",
        "campaign FILE=p inputs=7,9 first=1 count=2 steps=3 preemptions=2 choices-of=4"),
];

// The same, of explore and of those behind it.
#[rattlefmt::skip]
static FURTHER_LINES: [(&str, &str); 35] = [
    ("rvcons explore p --inputs 7,9", "explore FILE=p inputs=7,9"),
    ("rvcons explore p --inputs 7,9 --rule k", "explore FILE=p inputs=7,9 rule=k"),
    ("rvcons explore p --inputs 7,9 --refusals r", "explore FILE=p inputs=7,9 refusals=r"),
    ("rvcons explore p --inputs 7,9 --worlds 5", "explore FILE=p inputs=7,9 worlds=5"),
    ("rvcons explore p --inputs 7,9 --must-exit", "explore FILE=p inputs=7,9 must-exit=yes"),
    ("rvcons explore p --inputs 7,9 --never-both a..b",
        "explore FILE=p inputs=7,9 never-both=a..b"),
    ("rvcons explore p --inputs 7,9 --always x", "explore FILE=p inputs=7,9 always=x"),
    ("rvcons explore p --inputs 7,9 --bounds", "explore FILE=p inputs=7,9 bounds=yes"),
    ("rvcons explore p --json --inputs 7,9", "explore FILE=p inputs=7,9 json=yes"),
    ("rvcons explore --bounds --json --worlds 5 --refusals r --rule k --must-exit --always x --never-both a..b --inputs 7 p",
        "explore FILE=p inputs=7 rule=k refusals=r worlds=5 must-exit=yes never-both=a..b always=x bounds=yes json=yes"),
    ("rvcons schedule --harts 2 --steps 3", "schedule harts=2 steps=3"),
    ("rvcons schedule --harts 2 --steps 3 --seed 5", "schedule harts=2 steps=3 seed=5"),
    ("rvcons schedule --harts 2 --steps 3 --turns", "schedule harts=2 steps=3 turns=yes"),
    ("rvcons schedule --harts 2 --steps 3 --only 1", "schedule harts=2 steps=3 only=1"),
    ("rvcons schedule --harts 2 --steps 3 --schedule d", "schedule harts=2 steps=3 schedule=d"),
    ("rvcons schedule --harts 2 --steps 3 --refusals r", "schedule harts=2 steps=3 refusals=r"),
    ("rvcons schedule --harts 2 --steps 3 --within w", "schedule harts=2 steps=3 within=w"),
    ("rvcons schedule --harts 2 --steps 3 --inputs 7,9", "schedule harts=2 steps=3 inputs=7,9"),
    ("rvcons schedule --harts 2 --steps 3 p", "schedule harts=2 steps=3 FILE=p"),
    ("rvcons schedule p --inputs 7 --refusals r --schedule d --only 1 --seed 5 --steps 3 --harts 2",
        "schedule harts=2 steps=3 seed=5 only=1 schedule=d refusals=r inputs=7 FILE=p"),
    ("rvcons shrink p --inputs 7,9 --choices c", "shrink FILE=p inputs=7,9 choices=c"),
    ("rvcons shrink p --inputs 7,9 --choices c --rule k",
        "shrink FILE=p inputs=7,9 choices=c rule=k"),
    ("rvcons shrink p --inputs 7,9 --choices c --must-exit",
        "shrink FILE=p inputs=7,9 choices=c must-exit=yes"),
    ("rvcons shrink p --inputs 7,9 --choices c --never-both a..b",
        "shrink FILE=p inputs=7,9 choices=c never-both=a..b"),
    ("rvcons shrink p --inputs 7,9 --always x --choices c",
        "shrink FILE=p inputs=7,9 choices=c always=x"),
    ("rvcons shrink p --list 0! --inputs 7,9", "shrink FILE=p inputs=7,9 list=0!"),
    ("rvcons trace p --inputs 7,9 --choices c", "trace FILE=p inputs=7,9 choices=c"),
    ("rvcons trace p --inputs 7,9 --list 1", "trace FILE=p inputs=7,9 list=1"),
    ("rvcons trace --hex p --inputs 7,9 --choices c", "trace hex=yes FILE=p inputs=7,9 choices=c"),
    ("rvcons trace p --inputs 7 --choices c --from 1", "trace FILE=p inputs=7 choices=c from=1"),
    ("rvcons trace p --inputs 7 --choices c --to 2", "trace FILE=p inputs=7 choices=c to=2"),
    ("rvcons trace p --inputs 7 --choices c --table", "trace FILE=p inputs=7 choices=c table=yes"),
    ("rvcons trace p --inputs 7 --choices c --shared", "trace FILE=p inputs=7 choices=c shared=yes"),
    ("rvcons trace p --inputs 7 --choices c --word w+4", "trace FILE=p inputs=7 choices=c word=w+4"),
    ("rvcons trace --table p --to 2 --from 1 --choices c --inputs 7,9 --hex",
        "trace hex=yes FILE=p inputs=7,9 choices=c from=1 to=2 table=yes"),
];

// Whether an order is the one that is wanted, by what is read of its line.
fn is_order(alloc: Global, order: &Order, wanted: &str) -> bool {
    match order_text(alloc, order) {
        Ok(text) => text.as_str() == wanted,
        Err(_) => false,
    }
}

// Whether a line gives the order that is wanted.
fn gives(alloc: Global, line: &str, wanted: &str) -> bool {
    let Ok(words) = line.split(' ').collect::<Vec<&str>>(alloc) else {
        return false;
    };
    match read_line(alloc, words.as_slice(), KIND_NAMES) {
        Ok(order) => is_order(alloc, &order, wanted),
        Err(_) => false,
    }
}

fn lines() -> &'static [(&'static str, &'static str)] {
    &LINES
}

fn further_lines() -> &'static [(&'static str, &'static str)] {
    &FURTHER_LINES
}

#[test]
fn lines_are_read(rt: HostRuntime) {
    for (line, wanted) in lines() {
        assert!(rt; gives(rt.alloc(), line, wanted), "{line}");
    }
}

#[test]
fn further_lines_are_read(rt: HostRuntime) {
    for (line, wanted) in further_lines() {
        assert!(rt; gives(rt.alloc(), line, wanted), "{line}");
    }
}

// Whether the program of `run` alone reads a line as it should: as the order that is wanted if that
// is one of `run`, else as another command.
fn is_read_alone(alloc: Global, line: &str, wanted: &str) -> bool {
    let Ok(words) = line.split(' ').collect::<Vec<&str>>(alloc) else {
        return false;
    };
    match read_run(alloc, words.as_slice(), KIND_NAMES) {
        Ok(Some(order)) => is_order(alloc, &Order::Run(order), wanted),
        Ok(None) => !wanted.starts_with("run "),
        Err(_) => false,
    }
}

#[test]
fn lines_of_run_are_read_alone(rt: HostRuntime) {
    for (line, wanted) in lines() {
        assert!(rt; is_read_alone(rt.alloc(), line, wanted), "{line}");
    }
}

#[test]
fn further_lines_are_read_alone(rt: HostRuntime) {
    for (line, wanted) in further_lines() {
        assert!(rt; is_read_alone(rt.alloc(), line, wanted), "{line}");
    }
}

// Whether a line is read where there are no names of objects for its help.
fn is_read_without_objects(alloc: Global) -> bool {
    read_line(alloc, &["rvcons", "list", "p"], "").is_ok()
}

#[test]
fn objects_are_only_for_help(rt: HostRuntime) {
    assert!(rt; is_read_without_objects(rt.alloc()));
}

// A plan's text, the number of its pairs, and one of them; or `None` if invalid.
const PLANS: [(&str, Option<(usize, (u32, u32))>); 12] = [
    ("0:12", Some((1, (0, 12)))),
    ("0:12,1:3", Some((2, (1, 3)))),
    ("1:3,1:3,0:0", Some((2, (0, 0)))),
    ("4294967295:4294967295", Some((1, (u32::MAX, u32::MAX)))),
    ("007:0001", Some((1, (7, 1)))),
    ("", None),
    ("0", None),
    ("0:", None),
    (":0", None),
    ("0:1,", None),
    ("0:1:2", None),
    ("0:4294967296", None),
];

// Whether a text is a plan of this number of pairs with this one among them, or is invalid if none
// is expected.
fn has_plan(alloc: Global, text: &str, wanted: Option<(usize, (u32, u32))>) -> bool {
    match read_plan(alloc, text) {
        Ok(plan) => match wanted {
            Some((count, pair)) => plan.len() == count && plan.contains(&pair),
            None => false,
        },
        Err(LineFault::BadPlan) => wanted.is_none(),
        Err(_) => false,
    }
}

#[test]
fn plans_are_read(rt: HostRuntime) {
    for (text, wanted) in &PLANS {
        assert!(rt; has_plan(rt.alloc(), text, *wanted), "{text}");
    }
}

// Names, and their objects; `None` if invalid.
const OBJECTS: [(&str, Option<Kind>); 8] = [
    ("swap", Some(Kind::Swap)),
    ("add", Some(Kind::Add)),
    ("lrsc", Some(Kind::LrSc)),
    ("adopt", Some(Kind::AdoptCommit)),
    ("rounds", Some(Kind::Rounds)),
    ("Swap", None),
    ("swap ", None),
    ("", None),
];

// Whether a name is that of this object, or is invalid if none is expected.
fn has_object(text: &str, wanted: Option<Kind>) -> bool {
    match read_object(text) {
        Ok(kind) => wanted == Some(kind),
        Err(LineFault::BadObject) => wanted.is_none(),
        Err(_) => false,
    }
}

#[test]
fn objects_are_read(rt: HostRuntime) {
    for (text, wanted) in &OBJECTS {
        assert!(rt; has_object(text, *wanted), "{text}");
    }
}

// Texts, the maximum, and their numbers; `None` if invalid.
const NUMBERS: [(&str, u64, Option<u64>); 9] = [
    ("0", 0, Some(0)),
    ("007", 7, Some(7)),
    ("8", 7, None),
    ("18446744073709551615", u64::MAX, Some(u64::MAX)),
    ("18446744073709551616", u64::MAX, None),
    ("", 9, None),
    ("+1", 9, None),
    ("-1", 9, None),
    ("1 ", 9, None),
];

// Whether a text has this number, or is invalid if none is expected.
fn has_number(text: &str, most: u64, wanted: Option<u64>) -> bool {
    match read_number(text, most) {
        Ok(number) => wanted == Some(number),
        Err(LineFault::BadNumber) => wanted.is_none(),
        Err(_) => false,
    }
}

#[test]
fn numbers_are_read(rt: HostRuntime) {
    for (text, most, wanted) in &NUMBERS {
        assert!(rt; has_number(text, *most, *wanted), "{text}");
    }
}

// How a line is rejected.
#[derive(Clone, Copy, PartialEq)]
enum Refusal {
    // By a fault of clap.
    Fault,
    // By a text of clap that isn't a fault.
    Help,
    // As one without a command.
    NoCommand,
    // By the value of --explain.
    Explain,
}

// Lines that give no order, and how they are rejected.
const REFUSED: [(&str, Refusal); 51] = [
    ("rvcons foo", Refusal::Fault),
    ("rvcons asm", Refusal::Fault),
    ("rvcons list", Refusal::Fault),
    ("rvcons info", Refusal::Fault),
    ("rvcons info --by-address", Refusal::Fault),
    ("rvcons list --by-address p", Refusal::Fault),
    ("rvcons run --inputs 7 --choices c", Refusal::Fault),
    ("rvcons run p --choices c", Refusal::Fault),
    ("rvcons run p --inputs 7", Refusal::Fault),
    (
        "rvcons run p --inputs 7 --choices c --list 0",
        Refusal::Fault,
    ),
    ("rvcons debug --inputs 7 --choices c", Refusal::Fault),
    ("rvcons debug p --choices c", Refusal::Fault),
    ("rvcons debug p --inputs 7", Refusal::Fault),
    ("rvcons gdb p --choices c", Refusal::Fault),
    ("rvcons threads --inputs 7 --budget 5", Refusal::Fault),
    ("rvcons threads p --budget 5", Refusal::Fault),
    ("rvcons threads p --inputs 7", Refusal::Fault),
    ("rvcons replay --inputs 7 --history h", Refusal::Fault),
    ("rvcons replay p --history h", Refusal::Fault),
    ("rvcons replay p --inputs 7", Refusal::Fault),
    ("rvcons lib", Refusal::Fault),
    (
        "rvcons campaign --inputs 7 --first 1 --count 2 --steps 3",
        Refusal::Fault,
    ),
    (
        "rvcons campaign p --first 1 --count 2 --steps 3",
        Refusal::Fault,
    ),
    (
        "rvcons campaign p --inputs 7 --count 2 --steps 3",
        Refusal::Fault,
    ),
    (
        "rvcons campaign p --inputs 7 --first 1 --steps 3",
        Refusal::Fault,
    ),
    (
        "rvcons campaign p --inputs 7 --first 1 --count 2",
        Refusal::Fault,
    ),
    ("rvcons run p --inputs 7 --seed 5", Refusal::Fault),
    ("rvcons run p --inputs 7 --steps 5", Refusal::Fault),
    (
        "rvcons run p --inputs 7 --turns 5 --schedule d",
        Refusal::Fault,
    ),
    ("rvcons run p --inputs 7 --turns 5 --list 0", Refusal::Fault),
    (
        "rvcons run p --inputs 7 --choices c --seed 5 --steps 3",
        Refusal::Fault,
    ),
    ("rvcons explore --inputs 7", Refusal::Fault),
    ("rvcons explore p", Refusal::Fault),
    ("rvcons schedule --steps 3", Refusal::Fault),
    ("rvcons schedule --harts 2", Refusal::Fault),
    ("rvcons shrink --inputs 7 --choices c", Refusal::Fault),
    ("rvcons shrink p --choices c", Refusal::Fault),
    ("rvcons shrink p --inputs 7", Refusal::Fault),
    ("rvcons trace --inputs 7 --choices c", Refusal::Fault),
    ("rvcons trace p --choices c", Refusal::Fault),
    ("rvcons trace p --inputs 7", Refusal::Fault),
    ("rvcons run p q --inputs 7 --choices c", Refusal::Fault),
    (
        "rvcons run p --inputs 7 --inputs 7 --choices c",
        Refusal::Fault,
    ),
    (
        "rvcons run --hex --hex p --inputs 7 --choices c",
        Refusal::Fault,
    ),
    (
        "rvcons run p --inputs 7 --choices c --table",
        Refusal::Fault,
    ),
    ("rvcons list p --explain Always", Refusal::Explain),
    ("rvcons list p --explain=", Refusal::Explain),
    ("rvcons list p --explain", Refusal::Fault),
    ("rvcons", Refusal::NoCommand),
    ("rvcons --help", Refusal::Help),
    ("rvcons --version", Refusal::Help),
];

// How a line is rejected; `None` if it gives an order, or is rejected otherwise.
fn refusal_of(alloc: Global, line: &str) -> Option<Refusal> {
    let words = line.split(' ').collect::<Vec<&str>>(alloc).ok()?;
    match read_line(alloc, words.as_slice(), KIND_NAMES) {
        Err(LineFault::Told(error)) => Some(refusal_by_clap(error.use_stderr())),
        Err(LineFault::NoCommand) => Some(Refusal::NoCommand),
        Err(LineFault::BadExplain) => Some(Refusal::Explain),
        Err(_fault) => None,
        Ok(_order) => None,
    }
}

// How clap rejects a line, by whether its text is for standard error.
fn refusal_by_clap(is_fault: bool) -> Refusal {
    if is_fault {
        Refusal::Fault
    } else {
        Refusal::Help
    }
}

#[test]
fn bad_lines_are_refused(rt: HostRuntime) {
    for (line, wanted) in &REFUSED {
        assert!(rt; refusal_of(rt.alloc(), line) == Some(*wanted), "{line}");
    }
}
