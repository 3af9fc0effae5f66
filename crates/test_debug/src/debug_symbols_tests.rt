//! What no clause says: worked lines with symbols, with each request for memory refused in turn.
use debug_session::Debugger;
use debug_text::{Answer, DebugFault, command};
use elf_read::{Symbol, SymbolKind, SymbolPlace};
use machine::{Choice, Inputs};
use program_open::{hex_image, read_hex};
use std::alloc::{AllocError, Allocator, Global};
use test_refusing::{Call, tried};

// A loop that counts: addi t0, t0, 1 and a jump back.
const COUNT: &[u8] = b"00128293 FFDFF06F";

const SYMBOLS: &[(&str, u32)] = &[
    ("start", 0x0001_0000),
    ("loop", 0x0001_0004),
    ("twice", 0x0001_0000),
    ("twice", 0x0001_0004),
    ("same", 0x0001_0004),
    ("same", 0x0001_0004),
    ("a+b", 0x0001_0000),
    ("top", 0xffff_fffe),
    ("0xab", 0x0001_0000),
    ("7up", 0x0001_0000),
];

// Names, a line, and what is shown for it.
struct Labeled {
    symbols: &'static [(&'static str, u32)],
    row: Row,
}

// A line, and what is shown for it.
#[derive(Clone, Copy)]
struct Row {
    line: &'static str,
    wanted: &'static str,
}

#[rattlefmt::skip]
const ROWS: [Row; 38] = [
    Row { line: "break start", wanted: "break 00010000\n" },
    Row { line: "break loop+4", wanted: "break 00010008\n" },
    Row { line: "break loop+0x10", wanted: "break 00010014\n" },
    Row { line: "break loop+00", wanted: "break 00010004\n" },
    Row { line: "watch loop", wanted: "watch 00010004\n" },
    Row { line: "watch start+7", wanted: "watch 00010004\n" },
    Row { line: "mem start 1", wanted: "00010000 00128293\n" },
    Row { line: "mem start+4 1", wanted: "00010004 ffdff06f\n" },
    Row { line: "break same", wanted: "break 00010004\n" },
    Row { line: "break same+4", wanted: "break 00010008\n" },
    Row { line: "break twice", wanted: "several symbols\n" },
    Row { line: "watch twice+4", wanted: "several symbols\n" },
    Row { line: "mem twice 1", wanted: "several symbols\n" },
    Row { line: "break Start", wanted: "no symbol\n" },
    Row { line: "break star", wanted: "no symbol\n" },
    Row { line: "watch starts+4", wanted: "no symbol\n" },
    Row { line: "mem nowhere 0", wanted: "no symbol\n" },
    Row { line: "mem nowhere x", wanted: "no symbol\n" },
    Row { line: "mem start 0", wanted: "bad command\n" },
    Row { line: "mem start x", wanted: "bad command\n" },
    Row { line: "break a+b", wanted: "bad command\n" },
    Row { line: "break a+b+4", wanted: "break 00010004\n" },
    Row { line: "break top+1", wanted: "break ffffffff\n" },
    Row { line: "break top+2", wanted: "bad command\n" },
    Row { line: "break top+4294967295", wanted: "bad command\n" },
    Row { line: "break start+4294967296", wanted: "bad command\n" },
    Row { line: "break 0xab", wanted: "break 000000ab\n" },
    Row { line: "break 7up", wanted: "bad command\n" },
    Row { line: "break -start", wanted: "bad command\n" },
    Row { line: "break +4", wanted: "bad command\n" },
    Row { line: "break start+", wanted: "bad command\n" },
    Row { line: "break start+-1", wanted: "bad command\n" },
    Row { line: "break start+0x", wanted: "bad command\n" },
    Row { line: "break nowhere+x", wanted: "bad command\n" },
    Row { line: "goto start", wanted: "bad command\n" },
    Row { line: "regs start", wanted: "bad command\n" },
    Row { line: "steps start 1", wanted: "bad command\n" },
    Row { line: "mem 4 start", wanted: "bad command\n" },
];

#[rattlefmt::skip]
const LISTED: [Labeled; 4] = [
    Labeled { symbols: SYMBOLS, row: Row { line: "list 0",
        wanted: "hart 0 running pc 00010000\n=> 00010000 <start> addi t0, t0, 1\n   00010004 <loop> jal zero, 0x00010000\n   \
00010008 <loop+4> .word 0x00000000\n   0001000c <loop+8> .word 0x00000000\n   00010010 <loop+12> .word 0x00000000\n   00010014 <loop+16> .word 0x00000000\n" } },
    Labeled { symbols: &[("below", 0xff00), ("$x", 0x0001_0000)], row: Row { line: "list 0",
        wanted: "hart 0 running pc 00010000\n=> 00010000 <below+256> addi t0, t0, 1\n   00010004 <below+260> jal zero, 0x00010000\n   \
00010008 <below+264> .word 0x00000000\n   0001000c <below+268> .word 0x00000000\n   00010010 <below+272> .word 0x00000000\n   00010014 <below+276> .word 0x00000000\n" } },
    Labeled { symbols: &[("a\u{1b}[2J", 0x0001_0000), ("after", 0x0001_0004)], row: Row { line: "list 0",
        wanted: "hart 0 running pc 00010000\n=> 00010000 addi t0, t0, 1\n   00010004 <after> jal zero, 0x00010000\n   \
00010008 <after+4> .word 0x00000000\n   0001000c <after+8> .word 0x00000000\n   00010010 <after+12> .word 0x00000000\n   00010014 <after+16> .word 0x00000000\n" } },
    Labeled { symbols: SYMBOLS, row: Row { line: "list", wanted: "past end\n" } },
];

// The symbols of these names and addresses.
fn symbols_of<A: Allocator + Copy>(
    alloc: A,
    named: &[(&str, u32)],
) -> Result<Vec<Symbol<A>, A>, AllocError> {
    let mut symbols = Vec::new(alloc);
    for (name, address) in named {
        let name = String::from_str(alloc, *name)?;
        let address = *address;
        symbols.push(Symbol {
            name,
            address,
            kind: SymbolKind::Unsaid,
            place: SymbolPlace::Elsewhere,
        })?;
    }
    Ok(symbols)
}

// A debugger of the program with one hart and no choices; `None` if out of memory.
fn begin<A: Allocator + Copy>(alloc: A) -> Option<Debugger<A>> {
    let words = read_hex(alloc, COUNT).ok()?;
    let image = hex_image(alloc, &words).ok()?;
    let inputs = Inputs::new(&[7]).ok()?;
    let choices: Vec<Choice, A> = Vec::new(alloc);
    Debugger::new(alloc, image, inputs, choices).ok()
}

// Whether this is shown for a row's line where the program has these symbols.
fn is_shown<A: Allocator + Copy>(
    alloc: A,
    named: &[(&str, u32)],
    row: Row,
) -> Result<bool, AllocError> {
    let symbols = symbols_of(alloc, named)?;
    let Some(mut debugger) = begin(alloc) else {
        return Err(AllocError);
    };
    match command(alloc, &mut debugger, &symbols, row.line) {
        Ok(Answer::Text(text)) => Ok(text.as_str() == row.wanted),
        Ok(Answer::Quit) => Ok(false),
        Err(DebugFault::Memory) => Err(AllocError),
        Err(fault) => {
            let text = format!(in alloc; "{fault}\n")?;
            Ok(text.as_str() == row.wanted)
        }
    }
}

impl Call for Row {
    fn answer<A: Allocator + Copy>(&self, alloc: A, _host: Global) -> Result<bool, AllocError> {
        is_shown(alloc, SYMBOLS, *self)
    }
}

impl Call for Labeled {
    fn answer<A: Allocator + Copy>(&self, alloc: A, _host: Global) -> Result<bool, AllocError> {
        is_shown(alloc, self.symbols, self.row)
    }
}

#[test]
fn symbols_stand_for_addresses(rt: HostRuntime) {
    for row in &ROWS {
        let line = row.line;
        assert!(rt; tried(rt.alloc(), row).is_ok(), "{line}");
    }
}

#[test]
fn instructions_are_listed_with_their_labels(rt: HostRuntime) {
    for (number, listed) in LISTED.iter().enumerate() {
        assert!(rt; tried(rt.alloc(), listed).is_ok(), "{number}");
    }
}
