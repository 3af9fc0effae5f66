//! What is told of command lines, sources and lines at the debugger, and marks, with each request
//! for memory refused in turn; `tests/people` has typical mistakes.
use asm_statement::{Fault, FaultKind};
use elf_read::{Symbol, SymbolKind, SymbolPlace};
use hint_asm::{SourceText, asm_advice};
use hint_debug::line_advice;
use hint_text::{Mistake, order_advice, push_mark};
use image::Segment;
use std::alloc::{AllocError, Allocator, Global};
use test_refusing::{Call, tried};

// What is told of.
#[derive(Clone, Copy)]
enum Asked<'a> {
    // A command line.
    Order(Mistake, &'a [&'a str]),
    // A line of a source.
    Source(FaultKind, &'a str, usize),
    // A line at the debugger.
    Typed(&'a str),
    // A part of a line, by where it begins.
    Part(&'a str, usize),
}

// What is told, and what is wanted.
struct Case<'a> {
    asked: Asked<'a>,
    wanted: &'a str,
}

// The mark under a line.
fn marked<A: Allocator>(alloc: A, line: &str, start: usize) -> Result<String<A>, AllocError> {
    let mut text = String::new(alloc);
    push_mark(&mut text, line, start)?;
    Ok(text)
}

// What is told of a line of a source.
fn told_of_source<A: Allocator + Copy>(
    alloc: A,
    kind: FaultKind,
    text: &str,
    line: usize,
) -> Result<String<A>, AllocError> {
    let sources = [SourceText { path: "a.s", text }];
    let source = 0;
    asm_advice(alloc, &sources, Fault { kind, source, line })
}

// What is told of a line at the debugger of a program without segments, in which two symbols are
// named `f`, and one is named `wait`.
fn told_of_typed<A: Allocator + Copy>(alloc: A, line: &str) -> Result<String<A>, AllocError> {
    let segments: Vec<Segment<A>, A> = Vec::new(alloc);
    let mut symbols = Vec::new(alloc);
    for (name, address) in [
        ("f", 0x0001_0000),
        ("wait", 0x0001_0004),
        ("f", 0x0001_0008),
    ] {
        let name = String::from_str(alloc, name)?;
        symbols.push(Symbol {
            name,
            address,
            kind: SymbolKind::Unsaid,
            place: SymbolPlace::Elsewhere,
        })?;
    }
    line_advice(alloc, &segments, &symbols, line)
}

// What is told.
fn told<A: Allocator + Copy>(alloc: A, asked: Asked<'_>) -> Result<String<A>, AllocError> {
    match asked {
        Asked::Order(mistake, words) => order_advice(alloc, mistake, words),
        Asked::Source(kind, text, line) => told_of_source(alloc, kind, text, line),
        Asked::Typed(line) => told_of_typed(alloc, line),
        Asked::Part(line, start) => marked(alloc, line, start),
    }
}

impl<'a> Call for Case<'a> {
    fn answer<A: Allocator + Copy>(&self, alloc: A, _host: Global) -> Result<bool, AllocError> {
        let text = told(alloc, self.asked)?;
        Ok(text.as_str() == self.wanted)
    }
}

#[rattlefmt::skip]
const TOLD: [Case<'static>; 25] = [
    Case { asked: Asked::Order(Mistake::Command, &["rvcons", "disasm", "a.elf"]),
        wanted: "disasm is called list here: see rvcons list --help\n" },
    Case { asked: Asked::Order(Mistake::Command, &["rvcons", "rn", "a.elf"]),
        wanted: "is run meant?\n" },
    Case { asked: Asked::Order(Mistake::Option, &["rvcons", "run", "--input=7"]),
        wanted: "inputs stand together: write --inputs 7,9, one for each hart\n" },
    Case { asked: Asked::Order(Mistake::Option, &["rvcons", "list", "-5"]),
        wanted: "-5 is no option, and numbers have no sign: as rvcons list prog.elf\n" },
    Case { asked: Asked::Order(Mistake::Other, &["rvcons", "list", ""]),
        wanted: "as rvcons list prog.elf\n" },
    Case { asked: Asked::Source(FaultKind::Register, "addi a0, t7, 1", 1),
        wanted: "a.s:1: t7 is no register: write x0 to x31, or zero, ra, sp, gp, tp, t0 to t6, s0 to s11, a0 to a7\n    addi a0, t7, 1\n             ^^\n" },
    Case { asked: Asked::Source(FaultKind::Operands, "lw t0, counter", 1),
        wanted: "a.s:1: lw takes no name: write la t0, counter first, and then lw t0, 0(t0)\n    lw t0, counter\n           ^^^^^^^\n" },
    Case { asked: Asked::Source(FaultKind::Undefined, "here: nop\n  j ther\nthere: nop\n", 2),
        wanted: "a.s:2: ther is nowhere defined: is there meant?\n      j ther\n        ^^^^\n" },
    Case { asked: Asked::Typed("watch 00011000"),
        wanted: "00011000 was read as a decimal number, which is 00002af8: for a hexadecimal address write 0x00011000\n" },
    Case { asked: Asked::Typed("break 0x00010002"),
        wanted: "no hart stops at 00010002: instructions begin at multiples of 4\n" },
    Case { asked: Asked::Typed("break 0x00010004"),
        wanted: "no hart executes 00010004: it is in no segment that may be executed; rvcons info shows them\n" },
    Case { asked: Asked::Typed("watch wait+00000008"), wanted: "" },
    Case { asked: Asked::Typed("watch wiat+8"), wanted: "wiat is no symbol of the program: is wait meant?\n" },
    Case { asked: Asked::Typed("watch elsewhere"), wanted: "elsewhere is no symbol of the program\n" },
    Case { asked: Asked::Typed("mem f 1"),
        wanted: "several symbols are named f, at different addresses: write the address with 0x\n" },
    Case { asked: Asked::Typed("watch 4wait"), wanted: "watch takes an address, as watch 0x00011000\n" },
    Case { asked: Asked::Typed("regs"),
        wanted: "regs takes the number of a hart, and the names of up to 33 registers, as regs 0 or regs 0 a0 pc\n" },
    Case { asked: Asked::Typed("regs a0 a0"),
        wanted: "regs takes the number of a hart, and the names of up to 33 registers, as regs 0 or regs 0 a0 pc\n" },
    Case { asked: Asked::Typed("regs 0 a0 ap"),
        wanted: "ap is no register: is sp meant? there are x0 to x31, or zero, ra, sp, gp, tp, t0 to t6, s0 to s11, a0 to a7, and pc\n" },
    Case { asked: Asked::Typed("regs 0 x32"),
        wanted: "x32 is no register: write x0 to x31, or zero, ra, sp, gp, tp, t0 to t6, s0 to s11, a0 to a7, pc\n" },
    Case { asked: Asked::Typed("regs 0 a0 pc"), wanted: "" },
    Case { asked: Asked::Typed("step"), wanted: "step takes the number of a hart, as step 1\n" },
    Case { asked: Asked::Part("addi a0, q9, 1", 9), wanted: "         ^" },
    Case { asked: Asked::Part("\tj far", 3), wanted: "\t  ^" },
    Case { asked: Asked::Part("é x", 3), wanted: "  ^" },
];

#[test]
fn each_is_told(rt: HostRuntime) {
    for case in &TOLD {
        assert!(rt; tried(rt.alloc(), case).is_ok(), "{}", case.wanted);
    }
}
