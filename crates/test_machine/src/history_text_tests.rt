//! Tests what no clause says: example history texts, and the faults' texts.
use history::{Entry, HistoryFault, print_history, read_history};
use std::alloc::{AllocError, Global};

macro_rules! plain {
    ($hart:literal, $local:literal) => {
        Entry {
            hart: $hart,
            local: $local,
            refuse: false,
        }
    };
}

macro_rules! refused {
    ($hart:literal, $local:literal) => {
        Entry {
            hart: $hart,
            local: $local,
            refuse: true,
        }
    };
}

/// A text of two harts and its entries.
struct Worked {
    text: &'static str,
    entries: &'static [Entry],
}

/// Valid texts.
#[rattlefmt::skip]
const WORKED: [Worked; 5] = [
    Worked { text: "", entries: &[] },
    Worked { text: " \t\r\n", entries: &[] },
    Worked { text: "0+3 1+0!", entries: &[plain!(0, 3), refused!(1, 0)] },
    Worked { text: "\t0+0\r\n\n1+10!\n", entries: &[plain!(0, 0), refused!(1, 10)] },
    Worked { text: "1+4294967295", entries: &[plain!(1, 4_294_967_295)] },
];

fn is_read(alloc: Global, row: &Worked) -> Result<bool, HistoryFault> {
    let entries = read_history(alloc, row.text.as_bytes(), 2)?;
    Ok(entries.as_slice() == row.entries)
}

#[test]
fn history_texts_are_read(rt: HostRuntime) {
    for row in &WORKED {
        assert!(rt; is_read(rt.alloc(), row) == Ok(true), "{}", row.text);
    }
}

/// Invalid texts of two harts, and their faults.
const BAD_TEXTS: [(&'static str, HistoryFault); 18] = [
    ("0", HistoryFault::BadEntry(0)),
    ("0+", HistoryFault::BadEntry(0)),
    ("+0", HistoryFault::BadEntry(0)),
    ("+", HistoryFault::BadEntry(0)),
    ("!", HistoryFault::BadEntry(0)),
    ("0+1!!", HistoryFault::BadEntry(0)),
    ("0!+1", HistoryFault::BadEntry(0)),
    ("0+01", HistoryFault::BadEntry(0)),
    ("00+1", HistoryFault::BadEntry(0)),
    ("0+1+1", HistoryFault::BadEntry(0)),
    ("0-1", HistoryFault::BadEntry(0)),
    ("0+0 0 +1", HistoryFault::BadEntry(4)),
    ("0+4294967296", HistoryFault::BadEntry(0)),
    ("9+4294967296", HistoryFault::BadEntry(0)),
    ("0+18446744073709551616", HistoryFault::BadEntry(0)),
    ("2+0 x", HistoryFault::NoHart(0)),
    ("0+1 99999999999999999999+1!", HistoryFault::NoHart(4)),
    ("x 2+0", HistoryFault::BadEntry(0)),
];

fn fault_of(alloc: Global, text: &str) -> Option<HistoryFault> {
    read_history(alloc, text.as_bytes(), 2).err()
}

#[test]
fn bad_entries_are_refused(rt: HostRuntime) {
    for (text, fault) in &BAD_TEXTS {
        assert!(rt; fault_of(rt.alloc(), text) == Some(*fault), "{text}");
    }
}

const TEXTS_OF_FAULTS: [(HistoryFault, &'static str); 3] = [
    (HistoryFault::BadEntry(0), "history fault BadEntry at 0"),
    (HistoryFault::NoHart(2), "history fault NoHart at 2"),
    (HistoryFault::Memory, "out of memory"),
];

fn has_text(alloc: Global, fault: HistoryFault, wanted: &str) -> Result<bool, AllocError> {
    Ok(fault.to_string(alloc)?.as_str() == wanted)
}

#[test]
fn history_faults_have_texts(rt: HostRuntime) {
    for (fault, text) in &TEXTS_OF_FAULTS {
        assert!(rt; has_text(rt.alloc(), *fault, text) == Ok(true), "{text}");
    }
}

/// Texts that are printed.
#[rattlefmt::skip]
const PRINTED: [Worked; 3] = [
    Worked { text: "", entries: &[] },
    Worked { text: "31+0\n", entries: &[plain!(31, 0)] },
    Worked { text: "0+3 1+4294967295!\n", entries: &[plain!(0, 3), refused!(1, 4_294_967_295)] },
];

fn is_printed(alloc: Global, row: &Worked) -> Result<bool, AllocError> {
    Ok(print_history(alloc, row.entries)?.as_str() == row.text)
}

#[test]
fn histories_are_printed(rt: HostRuntime) {
    for row in &PRINTED {
        assert!(rt; is_printed(rt.alloc(), row) == Ok(true), "{}", row.text);
    }
}
