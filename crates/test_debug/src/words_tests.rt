//! Names, lines and items that are found in texts.
use hint_debug::{line_advice, watched_word};
use hint_fault::item_at;
use hint_text::{line_at, nearest};
use std::alloc::{AllocError, Allocator};

// What is looked for.
#[derive(Clone, Copy)]
enum Asked<'a> {
    // A name that fewer edits lead to.
    Name(&'a str, usize),
    // A line by its number.
    Line(usize),
    // An item of a choice text by where it begins.
    Item(usize),
}

// What is found.
fn found<A: Allocator + Copy>(
    alloc: A,
    asked: Asked<'_>,
) -> Result<Option<&'static str>, AllocError> {
    match asked {
        Asked::Name(text, bound) => nearest(alloc, &["add", "addi", "and"], text, bound),
        Asked::Line(number) => Ok(line_at("a\n\r\nb\n", number)),
        Asked::Item(offset) => Ok(Some(item_at(b"0 x9!\n", offset))),
    }
}

// What is looked for, and what is found.
const FOUND: [(Asked<'static>, Option<&str>); 12] = [
    (Asked::Name("addd", 2), Some("add")),
    (Asked::Name("addii", 3), Some("addi")),
    (Asked::Name("xyz", 3), None),
    (Asked::Name("and", 1), Some("and")),
    (Asked::Line(1), Some("a")),
    (Asked::Line(2), Some("")),
    (Asked::Line(3), Some("b")),
    (Asked::Line(4), None),
    (Asked::Item(0), Some("0")),
    (Asked::Item(2), Some("x9!")),
    (Asked::Item(6), Some("")),
    (Asked::Item(99), Some("")),
];

#[test]
fn each_is_found(rt: HostRuntime) {
    for (asked, wanted) in &FOUND {
        assert!(rt; found(rt.alloc(), *asked) == Ok(*wanted));
    }
}

#[test]
fn lines_at_the_debugger_are_read(rt: HostRuntime) -> Result<(), AllocError> {
    let told = line_advice(rt.alloc(), &[], &[], "watch 0x00011000")?;
    assert!(rt; told.as_str() == "");
    assert!(rt; watched_word("watch 00011000\nstep 8 of 34\n") == Some(0x0001_1000));
    let both = "break h0 00010010\nrwatch 00011004\nstep 9 of 34\n";
    assert!(rt; watched_word(both) == Some(0x0001_1004));
    assert!(rt; watched_word("end\nstep 34 of 34\n").is_none());
    Ok(())
}
