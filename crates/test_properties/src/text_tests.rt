//! Worked texts of properties, over symbols.
use elf_read::{Symbol, SymbolKind, SymbolPlace};
use property_judge::{Comparison, Order, Property};
use property_text::{PropertyFault, read_always, read_never_both, word_meant};
use std::alloc::{AllocError, Allocator, Global};

const SYMBOLS: [(&str, u32); 6] = [
    ("enter", 0x0001_0000),
    ("leave", 0x0001_0010),
    (".Lx.y", 0x0001_0020),
    ("lock", 0x0001_1000),
    ("twice", 0x0001_1004),
    ("twice", 0x0001_1008),
];

const LOCK: u32 = 0x0001_1000;

// A text of `--always`, with its word, its comparison and its number.
#[rattlefmt::skip]
const ALWAYS: [(&str, u32, Comparison, u32); 19] = [
    ("lock == 0", LOCK, Comparison::Equal, 0),
    ("lock != 0", LOCK, Comparison::Unequal, 0),
    ("lock < 2", LOCK, Comparison::Signed(Order::Less), 2),
    ("lock <= 2", LOCK, Comparison::Signed(Order::AtMost), 2),
    ("lock > 2", LOCK, Comparison::Signed(Order::Greater), 2),
    ("lock >= 2", LOCK, Comparison::Signed(Order::AtLeast), 2),
    ("lock <u 2", LOCK, Comparison::Unsigned(Order::Less), 2),
    ("lock <=u 2", LOCK, Comparison::Unsigned(Order::AtMost), 2),
    ("lock >u 2", LOCK, Comparison::Unsigned(Order::Greater), 2),
    ("lock >=u 2", LOCK, Comparison::Unsigned(Order::AtLeast), 2),
    ("lock+4 == 0x10", LOCK + 4, Comparison::Equal, 16),
    ("0x11000 == 010", LOCK, Comparison::Equal, 10),
    ("69632 == 1", LOCK, Comparison::Equal, 1),
    ("  lock   ==  1 ", LOCK, Comparison::Equal, 1),
    ("lock == -1", LOCK, Comparison::Equal, 0xffff_ffff),
    ("lock == -0", LOCK, Comparison::Equal, 0),
    ("lock == -2147483648", LOCK, Comparison::Equal, 0x8000_0000),
    ("lock == 4294967295", LOCK, Comparison::Equal, 0xffff_ffff),
    ("lock == 0xFFffFFff", LOCK, Comparison::Equal, 0xffff_ffff),
];

// A text that is none, and why.
#[rattlefmt::skip]
const NOT_ALWAYS: [(&str, PropertyFault); 20] = [
    ("", PropertyFault::BadProperty),
    ("lock == ", PropertyFault::BadProperty),
    ("lock==1", PropertyFault::BadProperty),
    ("lock == 1 2", PropertyFault::BadProperty),
    ("nowhere ? 1 2", PropertyFault::BadProperty),
    ("nowhere == 1", PropertyFault::NoSymbol),
    ("nowhere+1 ? x", PropertyFault::NoSymbol),
    ("twice == 1", PropertyFault::SeveralSymbols),
    ("-4 == 1", PropertyFault::BadAddress),
    ("lock+x ? 1", PropertyFault::BadAddress),
    ("4294967296 == 1", PropertyFault::BadAddress),
    ("lock+2 == 1", PropertyFault::Misaligned),
    ("lock+2 ? x", PropertyFault::Misaligned),
    ("lock = 1", PropertyFault::BadComparison),
    ("lock ==u x", PropertyFault::BadComparison),
    ("lock == x", PropertyFault::BadNumber),
    ("lock == --1", PropertyFault::BadNumber),
    ("lock == -2147483649", PropertyFault::BadNumber),
    ("lock == 4294967296", PropertyFault::BadNumber),
    ("lock == -0x1", PropertyFault::BadNumber),
];

// A text of a word alone, with its address, or why it has none.
#[rattlefmt::skip]
const WORDS: [(&str, Result<u32, PropertyFault>); 8] = [
    ("lock", Ok(LOCK)),
    ("lock+4", Ok(LOCK + 4)),
    ("0x20000", Ok(0x0002_0000)),
    ("", Err(PropertyFault::BadAddress)),
    (" lock", Err(PropertyFault::NoSymbol)),
    ("nowhere", Err(PropertyFault::NoSymbol)),
    ("twice", Err(PropertyFault::SeveralSymbols)),
    ("lock+2", Err(PropertyFault::Misaligned)),
];

// A text of `--never-both`, with its first address and the one behind its last.
#[rattlefmt::skip]
const NEVER_BOTH: [(&str, u32, u32); 6] = [
    ("enter..leave", 0x0001_0000, 0x0001_0010),
    ("enter+4..leave+4", 0x0001_0004, 0x0001_0014),
    ("0x10000..65540", 0x0001_0000, 0x0001_0004),
    ("enter...Lx.y", 0x0001_0000, 0x0001_0020),
    (".Lx.y..lock", 0x0001_0020, 0x0001_1000),
    ("enter..enter+1", 0x0001_0000, 0x0001_0001),
];

// A text that is none, and why.
#[rattlefmt::skip]
const NOT_NEVER_BOTH: [(&str, PropertyFault); 12] = [
    ("", PropertyFault::BadRange),
    ("enter", PropertyFault::BadRange),
    ("enter.leave", PropertyFault::BadRange),
    ("enter leave", PropertyFault::BadRange),
    ("enter.", PropertyFault::BadRange),
    ("..leave", PropertyFault::BadAddress),
    ("enter..", PropertyFault::BadAddress),
    ("enter..nowhere", PropertyFault::NoSymbol),
    ("twice..nowhere", PropertyFault::SeveralSymbols),
    ("leave..enter", PropertyFault::EmptyRange),
    ("enter..enter", PropertyFault::EmptyRange),
    ("enter..leave..lock", PropertyFault::NoSymbol),
];

fn symbols_of<A: Allocator + Copy>(alloc: A) -> Result<Vec<Symbol<A>, A>, AllocError> {
    let mut symbols = Vec::new(alloc);
    for (name, address) in &SYMBOLS {
        let name = String::from_str(alloc, *name)?;
        let address = *address;
        symbols.push(Symbol {
            name,
            address,
            kind: SymbolKind::Unsaid,
            place: SymbolPlace::Elsewhere,
        })?;
    }
    Ok(symbols)
}

// What a text of `--always` says; nothing where memory is refused.
fn always_of(alloc: Global, text: &str) -> Option<Result<Property, PropertyFault>> {
    let symbols = symbols_of(alloc).ok()?;
    Some(read_always(&symbols, text.as_bytes()))
}

// What a text of `--never-both` says; nothing where memory is refused.
fn never_both_of(alloc: Global, text: &str) -> Option<Result<Property, PropertyFault>> {
    let symbols = symbols_of(alloc).ok()?;
    Some(read_never_both(&symbols, text.as_bytes()))
}

#[test]
fn texts_say_words_compared(rt: HostRuntime) {
    for (text, word, comparison, number) in &ALWAYS {
        let (word, comparison, number) = (*word, *comparison, *number);
        let wanted = Property::Always {
            word,
            comparison,
            number,
        };
        let text = *text;
        assert!(rt; always_of(rt.alloc(), text) == Some(Ok(wanted)), "{text}");
    }
}

#[test]
fn texts_say_no_words_compared(rt: HostRuntime) {
    for (text, fault) in &NOT_ALWAYS {
        let text = *text;
        assert!(rt; always_of(rt.alloc(), text) == Some(Err(*fault)), "{text}");
    }
}

#[test]
fn texts_say_words(rt: HostRuntime) {
    for (text, wanted) in &WORDS {
        let text = *text;
        let Ok(symbols) = symbols_of(rt.alloc()) else {
            return;
        };
        assert!(rt; word_meant(&symbols, text.as_bytes()) == *wanted, "{text}");
    }
}

#[test]
fn texts_say_ranges(rt: HostRuntime) {
    for (text, from, to) in &NEVER_BOTH {
        let (from, to) = (*from, *to);
        let wanted = Property::NeverBoth { from, to };
        let text = *text;
        assert!(rt;
            never_both_of(rt.alloc(), text) == Some(Ok(wanted)),
            "{text}"
        );
    }
}

#[test]
fn texts_say_no_ranges(rt: HostRuntime) {
    for (text, fault) in &NOT_NEVER_BOTH {
        let text = *text;
        assert!(rt;
            never_both_of(rt.alloc(), text) == Some(Err(*fault)),
            "{text}"
        );
    }
}

// The line of each fault.
#[rattlefmt::skip]
const LINES: [(PropertyFault, &str); 9] = [
    (PropertyFault::BadProperty, "bad property"),
    (PropertyFault::BadRange, "bad range"),
    (PropertyFault::BadAddress, "bad address"),
    (PropertyFault::NoSymbol, "no symbol"),
    (PropertyFault::SeveralSymbols, "several symbols"),
    (PropertyFault::Misaligned, "misaligned word"),
    (PropertyFault::BadComparison, "bad comparison"),
    (PropertyFault::BadNumber, "bad number"),
    (PropertyFault::EmptyRange, "empty range"),
];

// Whether a fault's line is this one.
fn is_line(alloc: Global, fault: PropertyFault, line: &str) -> bool {
    match format!(in alloc; "{fault}") {
        Ok(text) => text.as_str() == line,
        Err(AllocError) => false,
    }
}

#[test]
fn faults_have_lines(rt: HostRuntime) {
    for (fault, line) in &LINES {
        let line = *line;
        assert!(rt; is_line(rt.alloc(), *fault, line), "{line}");
    }
}
