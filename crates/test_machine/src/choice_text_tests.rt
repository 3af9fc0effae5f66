//! Tests what no clause says: example texts, and the faults' texts.
use machine::Choice;
use sched_text::{ChoiceFault, read_choices};
use std::alloc::{AllocError, Global};

/// A text of two harts and its choices.
struct Worked {
    text: &'static str,
    choices: &'static [Choice],
}

#[rattlefmt::skip]
const WORKED: [Worked; 10] = [
    Worked { text: "", choices: &[] },
    Worked { text: " \t\r\n", choices: &[] },
    Worked { text: "0 1 0!", choices: &[plain!(0), plain!(1), refused!(0)] },
    Worked { text: "1", choices: &[plain!(1)] },
    Worked { text: "\t0\r\n\n1!\n", choices: &[plain!(0), refused!(1)] },
    Worked { text: "0  0", choices: &[plain!(0), plain!(0)] },
    Worked { text: "1*1", choices: &[plain!(1)] },
    Worked { text: "0*2 1", choices: &[plain!(0), plain!(0), plain!(1)] },
    Worked { text: "0*3 1!*2", choices: &[plain!(0), plain!(0), plain!(0), refused!(1), refused!(1)] },
    Worked { text: "\n1!*2\t", choices: &[refused!(1), refused!(1)] },
];

fn is_read(alloc: Global, row: &Worked) -> Result<bool, ChoiceFault> {
    let choices = read_choices(alloc, row.text.as_bytes(), 2)?;
    Ok(choices.as_slice() == row.choices)
}

#[test]
fn texts_are_read(rt: HostRuntime) {
    for row in &WORKED {
        assert!(rt; is_read(rt.alloc(), row) == Ok(true), "{}", row.text);
    }
}

/// Invalid texts of two harts, and their faults.
const BAD_TEXTS: [(&'static str, ChoiceFault); 28] = [
    ("0 2", ChoiceFault::NoHart(2)),
    ("2 x", ChoiceFault::NoHart(0)),
    ("x 2", ChoiceFault::BadChoice(0)),
    ("0!!", ChoiceFault::BadChoice(0)),
    ("01", ChoiceFault::BadChoice(0)),
    ("00", ChoiceFault::BadChoice(0)),
    ("0 !", ChoiceFault::BadChoice(2)),
    ("0,1", ChoiceFault::BadChoice(0)),
    ("+1", ChoiceFault::BadChoice(0)),
    ("0 1 \n\u{b}1", ChoiceFault::BadChoice(5)),
    ("99999999999999999999", ChoiceFault::NoHart(0)),
    ("0 4294967296", ChoiceFault::NoHart(2)),
    ("18446744073709551616!", ChoiceFault::NoHart(0)),
    ("099999999999999999999", ChoiceFault::BadChoice(0)),
    ("0 1\t2!", ChoiceFault::NoHart(4)),
    ("0 1*0", ChoiceFault::BadChoice(2)),
    ("0*", ChoiceFault::BadChoice(0)),
    ("0*01", ChoiceFault::BadChoice(0)),
    ("0*3!", ChoiceFault::BadChoice(0)),
    ("0*3*3", ChoiceFault::BadChoice(0)),
    ("*3", ChoiceFault::BadChoice(0)),
    ("0!!*3", ChoiceFault::BadChoice(0)),
    ("0*+3", ChoiceFault::BadChoice(0)),
    ("0 *3", ChoiceFault::BadChoice(2)),
    ("0*16777217", ChoiceFault::BadChoice(0)),
    ("0*4294967297", ChoiceFault::BadChoice(0)),
    ("9*2", ChoiceFault::NoHart(0)),
    ("9*0", ChoiceFault::BadChoice(0)),
];

fn fault_of(alloc: Global, text: &str) -> Option<ChoiceFault> {
    read_choices(alloc, text.as_bytes(), 2).err()
}

#[test]
fn bad_items_are_refused(rt: HostRuntime) {
    for (text, fault) in &BAD_TEXTS {
        assert!(rt; fault_of(rt.alloc(), text) == Some(*fault), "{text}");
    }
}

// Whether the longest run and one choice more are read.
fn is_longest_read(alloc: Global) -> Result<bool, ChoiceFault> {
    let choices = read_choices(alloc, b"1!*16777216 0", 2)?;
    Ok(
        choices.len() == 16_777_217
            && choices.get(16_777_215) == Some(&refused!(1))
            && choices.get(16_777_216) == Some(&plain!(0)),
    )
}

#[test]
fn the_longest_count_is_taken(rt: HostRuntime) {
    assert!(rt; is_longest_read(rt.alloc()) == Ok(true));
}

const TEXTS_OF_FAULTS: [(ChoiceFault, &'static str); 3] = [
    (ChoiceFault::BadChoice(0), "choice fault BadChoice at 0"),
    (ChoiceFault::NoHart(2), "choice fault NoHart at 2"),
    (ChoiceFault::Memory, "out of memory"),
];

fn has_text(alloc: Global, fault: ChoiceFault, wanted: &str) -> Result<bool, AllocError> {
    Ok(fault.to_string(alloc)?.as_str() == wanted)
}

#[test]
fn faults_have_texts(rt: HostRuntime) {
    for (fault, text) in &TEXTS_OF_FAULTS {
        assert!(rt; has_text(rt.alloc(), *fault, text) == Ok(true), "{text}");
    }
}
