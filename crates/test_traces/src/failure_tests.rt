//! Why store-conditionals fail, in the rows of a table, worked by hand.
use crate::worked::file_of;
use byte_io::{MemorySink, MemorySource, Status};
use cmd_trace::{TraceForm, TracePlan, trace_engine};
use program_open::ProgramForm;
use std::alloc::Global;

// Store-conditionals into the reserved word and into the one behind it.
const CONDITIONALS: &str = ".globl _start
_start:
    lui s0, 0x11
    lr.w t0, (s0)
    addi s1, s0, 4
    sc.w t1, a1, (s0)
    sc.w zero, a1, (s1)

.data
cell: .word 5
other: .word 9
";

// A run of both harts, and the number and the row of its last choice.
struct Row {
    name: &'static str,
    choices: &'static str,
    number: u64,
    row: &'static str,
}

#[rattlefmt::skip]
const ROWS: [Row; 8] = [
    Row { name: "stores", choices: "0*4", number: 3,
        row: "| 3 | `sc.w t1, a1, (s0)` succeeds, t1 = 0x00000000, [0x00011000]: 0x00000005 → 0x00000007 |  | _start+12 |\n" },
    Row { name: "refused", choices: "0*3 0!", number: 3,
        row: "| 3 | `sc.w t1, a1, (s0)` fails: refused, t1 = 0x00000001, [0x00011000] (refused) |  | _start+12 |\n" },
    Row { name: "its own store-conditional", choices: "0*5", number: 4,
        row: "| 4 | `sc.w zero, a1, (s1)` fails: no reservation, [0x00011004] |  | _start+16 |\n" },
    Row { name: "another hart's store-conditional", choices: "0*3 1*4 0", number: 7,
        row: "| 7 | `sc.w t1, a1, (s0)` fails: ended by hart 1 at choice 6, t1 = 0x00000001, [0x00011000] |  | _start+12 |\n" },
    Row { name: "the other way round", choices: "1*3 0*4 1", number: 7,
        row: "| 7 |  | `sc.w t1, a1, (s0)` fails: ended by hart 0 at choice 6, t1 = 0x00000001, [0x00011000] | _start+12 |\n" },
    Row { name: "ended and refused", choices: "0*3 1*4 0!", number: 7,
        row: "| 7 | `sc.w t1, a1, (s0)` fails: ended by hart 1 at choice 6, t1 = 0x00000001, [0x00011000] (refused) |  | _start+12 |\n" },
    Row { name: "both had reserved it", choices: "0*3 1*3 0 1", number: 7,
        row: "| 7 |  | `sc.w t1, a1, (s0)` fails: ended by hart 0 at choice 6, t1 = 0x00000001, [0x00011000] | _start+12 |\n" },
    Row { name: "again, without a load-reserved", choices: "0*3 1*4 0 0", number: 8,
        row: "| 8 | `sc.w zero, a1, (s1)` fails: ended by hart 1 at choice 6, [0x00011004] |  | _start+16 |\n" },
];

// A store-conditional into a word that isn't the reserved one.
const BESIDE: &str = ".globl _start
_start:
    lui s0, 0x11
    lr.w t0, (s0)
    addi s1, s0, 4
    sc.w t1, a1, (s1)

.data
cell: .word 5
other: .word 9
";

const BESIDE_ROW: Row = Row {
    name: "of another word",
    choices: "0*4",
    number: 3,
    row: "| 3 | `sc.w t1, a1, (s1)` fails: reserved 0x00011000, t1 = 0x00000001, [0x00011004] |  | _start+12 |\n",
};

// Whether the table of the last choice of a run of this source is this row.
fn has_row(host: Global, source: &str, row: &Row) -> Option<bool> {
    let file = file_of(host, source)?;
    let plan = TracePlan {
        form: TraceForm::Table,
        from: row.number,
        to: None,
        word: None,
    };
    let mut program = MemorySource::new(&file);
    let mut choices = MemorySource::new(row.choices.as_bytes());
    let mut sink = MemorySink::new(host);
    let answer = trace_engine(
        host,
        ProgramForm::Elf,
        plan,
        &[7, 9],
        &mut program,
        &mut choices,
        &mut sink,
    );
    let ends = sink.bytes().strip_suffix(row.row.as_bytes()).is_some();
    Some(answer == Ok(Status::Done) && ends)
}

#[test]
fn failed_store_conditionals_say_why(rt: HostRuntime) {
    for row in &ROWS {
        let name = row.name;
        assert!(rt;
            has_row(rt.alloc(), CONDITIONALS, row) == Some(true),
            "{name}"
        );
    }
    assert!(rt;
        has_row(rt.alloc(), BESIDE, &BESIDE_ROW) == Some(true),
        "of another word"
    );
}
