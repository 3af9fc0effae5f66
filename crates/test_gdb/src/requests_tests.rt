//! What no clause says: packets of GDB 13.1, and packets that are refused.
use gdb_requests::{
    Action, Plain, Point, PointKind, Request, RequestFault, ThreadAction, Threads, hex_number,
    read_actions, read_plain, read_request,
};
use std::alloc::Global;

// A packet's data, and what it asks for.
type Row = (&'static str, Result<Plain, RequestFault>);

const BAD: Result<Plain, RequestFault> = Err(RequestFault::BadOperand);

const UNKNOWN: Result<Plain, RequestFault> = Err(RequestFault::Unknown);

const QUESTIONS: [Row; 19] = [
    (
        "qSupported:multiprocess+;swbreak+;hwbreak+;xmlRegisters=i386",
        Ok(Plain::Supported {
            software_stops: true,
        }),
    ),
    (
        "qSupported:xswbreak+;swbreak-",
        Ok(Plain::Supported {
            software_stops: false,
        }),
    ),
    (
        "qSupported",
        Ok(Plain::Supported {
            software_stops: false,
        }),
    ),
    ("QStartNoAckMode", Ok(Plain::NoAcks)),
    ("?", Ok(Plain::Reason)),
    (
        "qXfer:features:read:target.xml:0,1000",
        Ok(Plain::Target {
            from: 0,
            length: 0x1000,
        }),
    ),
    (
        "qXfer:threads:read::ffb,FFB",
        Ok(Plain::ThreadList {
            from: 0xffb,
            length: 0xffb,
        }),
    ),
    ("qfThreadInfo", Ok(Plain::FirstThreads)),
    ("qsThreadInfo", Ok(Plain::MoreThreads)),
    ("qThreadExtraInfo,2", Ok(Plain::ThreadState(2))),
    ("qC", Ok(Plain::CurrentThread)),
    ("qAttached", Ok(Plain::Attached)),
    ("qSymbol::", Ok(Plain::Symbols)),
    ("Hg0", Ok(Plain::ReadThread(Threads::Any))),
    ("Hg12", Ok(Plain::ReadThread(Threads::One(18)))),
    ("Hc-1", Ok(Plain::MoveThreads(Threads::All))),
    ("T1", Ok(Plain::IsThere(1))),
    ("g", Ok(Plain::Registers)),
    ("p20", Ok(Plain::Register(32))),
];

const ACTS: [Row; 15] = [
    (
        "m10180,40",
        Ok(Plain::Memory {
            address: 0x10180,
            length: 0x40,
        }),
    ),
    (
        "m00000000ffffffff,0",
        Ok(Plain::Memory {
            address: 0xffff_ffff,
            length: 0,
        }),
    ),
    (
        "Z0,10180,4",
        Ok(Plain::Insert(Point {
            kind: PointKind::Software,
            address: 0x10180,
            length: 4,
        })),
    ),
    (
        "z4,1120c,1",
        Ok(Plain::Remove(Point {
            kind: PointKind::Access,
            address: 0x1120c,
            length: 1,
        })),
    ),
    ("vCont?", Ok(Plain::Actions)),
    ("c", Ok(Plain::Continue)),
    ("s", Ok(Plain::Step)),
    ("bc", Ok(Plain::BackContinue)),
    ("bs", Ok(Plain::BackStep)),
    ("G00", Ok(Plain::Write)),
    ("P0=0", Ok(Plain::Write)),
    ("M0,1:00", Ok(Plain::Write)),
    ("X0,0:", Ok(Plain::Write)),
    ("D", Ok(Plain::Detach)),
    ("k", Ok(Plain::Kill)),
];

#[rattlefmt::skip]
const REFUSED: [Row; 38] = [
    ("m", BAD), ("m,", BAD), ("m10094", BAD), ("m10094,", BAD), ("m,4", BAD), ("m1,2,3", BAD),
    ("m 1,2", BAD), ("m0x1,2", BAD), ("m100000000,4", BAD), ("m0,100000000", BAD), ("p", BAD),
    ("p-1", BAD), ("pg", BAD), ("H", BAD), ("Hx1", BAD), ("Hg", BAD), ("Hg-2", BAD),
    ("Hg100000000", BAD), ("T", BAD), ("T-1", BAD), ("qThreadExtraInfo,", BAD),
    ("qXfer:features:read:target.xml:0", BAD), ("qXfer:threads:read::0", BAD), ("Z0,10094", BAD),
    ("Z0,,4", BAD), ("z2,10094,4;X1,0", BAD), ("Z9,,4", BAD), ("Z9,10094,4", UNKNOWN),
    ("Zx,10094,4", UNKNOWN), ("Z", UNKNOWN), ("Z0", UNKNOWN), ("", UNKNOWN), ("vCont", UNKNOWN),
    ("vMustReplyEmpty", UNKNOWN), ("qTStatus", UNKNOWN), ("c10094", UNKNOWN),
    ("qXfer:features:read:other.xml:0,10", UNKNOWN), ("gg", UNKNOWN),
];

// The first packet that isn't read as its row says.
fn first_other(rows: &[Row]) -> Option<&'static str> {
    for (text, wanted) in rows {
        if read_plain(text.as_bytes()) != *wanted {
            return Some(text);
        }
    }
    None
}

#[test]
fn questions(rt: HostRuntime) {
    assert_eq!(rt; first_other(&QUESTIONS).unwrap_or("none"), "none");
}

#[test]
fn acts(rt: HostRuntime) {
    assert_eq!(rt; first_other(&ACTS).unwrap_or("none"), "none");
}

#[test]
fn refused(rt: HostRuntime) {
    assert_eq!(rt; first_other(&REFUSED).unwrap_or("none"), "none");
}

// A list of actions, and what it says.
type List = (&'static str, &'static [ThreadAction]);

const STEP_2: ThreadAction = ThreadAction {
    action: Action::Step,
    threads: Some(Threads::One(2)),
};

const RANGE: ThreadAction = ThreadAction {
    action: Action::Range {
        from: 0x10094,
        to: 0x100a0,
    },
    threads: Some(Threads::All),
};

const GO: ThreadAction = ThreadAction {
    action: Action::Continue,
    threads: None,
};

const LISTS: [List; 5] = [
    ("c", &[GO]),
    ("C05", &[GO]),
    ("s:2;c", &[STEP_2, GO]),
    ("S1f:2", &[STEP_2]),
    ("r10094,100a0:-1;s:2;C0A", &[RANGE, STEP_2, GO]),
];

// Whether a list says these actions.
fn says(alloc: Global, list: &str, wanted: &[ThreadAction]) -> bool {
    let Ok(actions) = read_actions(alloc, list.as_bytes()) else {
        return false;
    };
    actions.as_slice() == wanted
}

#[test]
fn lists(rt: HostRuntime) {
    for (list, wanted) in &LISTS {
        assert!(rt; says(rt.alloc(), list, wanted), "{list}");
    }
}

const NO_LISTS: [&'static str; 16] = [
    "",
    "x",
    "t",
    "c;",
    ";c",
    "c:",
    "c:1:2",
    "s:g",
    "s:100000000",
    "C5",
    "C0g",
    "C005",
    "r",
    "r1",
    "r1,2,3",
    "r1,100000000",
];

#[test]
fn no_lists(rt: HostRuntime) {
    for list in &NO_LISTS {
        let refused = matches!(
            read_actions(rt.alloc(), list.as_bytes()),
            Err(RequestFault::BadOperand)
        );
        assert!(rt; refused, "{list}");
    }
}

// The command of a packet to the server, empty if it is none.
fn command(alloc: Global, text: &[u8]) -> Result<Vec<u8>, RequestFault> {
    match read_request(alloc, text)? {
        Request::Monitor(bytes) => Ok(bytes),
        _ => Ok(Vec::new(alloc)),
    }
}

#[test]
fn commands(rt: HostRuntime) {
    let alloc = rt.alloc();
    let is_where = match command(alloc, b"qRcmd,7768657265") {
        Ok(text) => text.as_slice() == b"where".as_slice(),
        Err(_) => false,
    };
    assert!(rt; is_where);
    assert!(rt; command(alloc, b"qRcmd,").is_ok());
    assert!(rt; command(alloc, b"qRcmd,7").is_err());
    assert!(rt; command(alloc, b"qRcmd,zz").is_err());
}

#[test]
fn numbers(rt: HostRuntime) {
    assert_eq!(rt; hex_number(b"DeadBeef"), Some(0xdead_beef));
    assert_eq!(rt; hex_number(b"fffffffff"), None);
}
