//! Properties without a clause: worked texts, the texts of the faults, and out of memory.
use asm_lex::{Kind, Lexeme, Next, TextFault, next_lexeme, scan_text, tokens};
use std::alloc::{AllocError, Global};
use test_refusing::Refusing;

// The kinds of a text's tokens.
fn kinds_of(alloc: Global, text: &str) -> Result<Vec<Kind>, TextFault> {
    let all = tokens(alloc, text)?;
    Ok(
        all.iter()
            .map(|token| token.kind)
            .collect::<Vec<Kind>>(alloc)?,
    )
}

// A text, and the kinds of its tokens.
type Cut = (&'static str, &'static [Kind]);

// Whether a text has tokens of these kinds.
fn has_kinds(alloc: Global, text: &str, wanted: &[Kind]) -> bool {
    match kinds_of(alloc, text) {
        Ok(kinds) => kinds.as_slice() == wanted,
        Err(_) => false,
    }
}

// Whether each text has tokens of its kinds; else the first one that has not.
fn each_is_cut(alloc: Global, rows: &[Cut]) -> Result<(), &'static str> {
    for (text, wanted) in rows {
        if !has_kinds(alloc, text, wanted) {
            return Err(text);
        }
    }
    Ok(())
}

// Texts with each kind of token.
const TEXTS: [Cut; 10] = [
    ("", &[]),
    (" \t# end", &[]),
    ("a1:", &[Kind::Name, Kind::Colon]),
    ("lr.w.aq _x $y", &[Kind::Name, Kind::Name, Kind::Name]),
    ("\r\n\n", &[Kind::LineEnd, Kind::LineEnd]),
    (
        "a # b\r\n; c",
        &[Kind::Name, Kind::LineEnd, Kind::Semicolon, Kind::Name],
    ),
    (
        "-0x1F(sp)",
        &[
            Kind::Minus,
            Kind::Number(31),
            Kind::Open,
            Kind::Name,
            Kind::Close,
        ],
    ),
    (
        "%lo(x+5)",
        &[
            Kind::Percent,
            Kind::Name,
            Kind::Open,
            Kind::Name,
            Kind::Plus,
            Kind::Number(5),
            Kind::Close,
        ],
    ),
    (
        ".asciz \"a\\\"#;b\" @!",
        &[Kind::Name, Kind::Text, Kind::Other(b'@'), Kind::Other(b'!')],
    ),
    ("\"\\\\\" \"\"", &[Kind::Text, Kind::Text]),
];

#[test]
fn texts_are_cut(rt: HostRuntime) -> Result<(), &'static str> {
    each_is_cut(rt.alloc(), &TEXTS)
}

// Numbers and references.
const DIGITS: [Cut; 4] = [
    (
        "1: j 1b, 1f",
        &[
            Kind::Number(1),
            Kind::Colon,
            Kind::Name,
            Kind::Back,
            Kind::Comma,
            Kind::Ahead,
        ],
    ),
    (
        "0b 0b1 0f 0x0b 0xf",
        &[
            Kind::Back,
            Kind::Number(1),
            Kind::Ahead,
            Kind::Number(11),
            Kind::Number(15),
        ],
    ),
    (
        "017 0 00 10",
        &[
            Kind::Number(15),
            Kind::Number(0),
            Kind::Number(0),
            Kind::Number(10),
        ],
    ),
    (
        "4294967295 0xffffFFFF 037777777777",
        &[
            Kind::Number(0xffff_ffff),
            Kind::Number(0xffff_ffff),
            Kind::Number(0xffff_ffff),
        ],
    ),
];

#[test]
fn numbers_and_references_are_told_apart(rt: HostRuntime) -> Result<(), &'static str> {
    each_is_cut(rt.alloc(), &DIGITS)
}

// Texts and their first faults.
const FAULTS: [(&str, TextFault); 19] = [
    ("nop\n 08", TextFault::BadNumber(5)),
    ("4294967296", TextFault::BadNumber(0)),
    ("0x100000000", TextFault::BadNumber(0)),
    (
        "0b100000000000000000000000000000000",
        TextFault::BadNumber(0),
    ),
    ("040000000000", TextFault::BadNumber(0)),
    ("0x 1", TextFault::BadNumber(0)),
    ("0X1", TextFault::BadNumber(0)),
    ("0B1", TextFault::BadNumber(0)),
    ("a 1bb", TextFault::BadNumber(2)),
    ("12a", TextFault::BadNumber(0)),
    ("a \"b\nc\"", TextFault::OpenText(2)),
    ("\"\\\"", TextFault::OpenText(0)),
    ("a\rb", TextFault::BadChar(1)),
    ("a\r", TextFault::BadChar(1)),
    ("a \u{7f}", TextFault::BadChar(2)),
    ("\u{b}", TextFault::BadChar(0)),
    ("a\u{e9}", TextFault::BadChar(1)),
    ("\u{1} \"", TextFault::BadChar(0)),
    ("\" \u{1}", TextFault::OpenText(0)),
];

// The fault of a text; `None` if it has none.
fn fault_of(alloc: Global, text: &str) -> Option<TextFault> {
    tokens(alloc, text).err()
}

#[test]
fn the_first_fault_is_told(rt: HostRuntime) {
    for (text, wanted) in &FAULTS {
        assert!(rt; fault_of(rt.alloc(), text) == Some(*wanted), "{text}");
    }
}

// A comment and a string with arbitrary bytes.
const ANY_BYTES: [&str; 2] = ["# \u{e9}\r \u{1}", "\"\u{e9}\r \u{1}\""];

#[test]
fn any_byte_may_stand_in_comments_and_strings(rt: HostRuntime) {
    for text in &ANY_BYTES {
        assert!(rt; fault_of(rt.alloc(), text).is_none(), "{text}");
    }
}

// Whether the tokens before a fault are returned, with their places.
fn are_kept(alloc: Global) -> Result<bool, AllocError> {
    let scan = scan_text(alloc, "a, 5 08 b")?;
    let spans = scan
        .tokens
        .iter()
        .map(|token| (token.start, token.end))
        .collect::<Vec<(usize, usize)>>(alloc)?;
    let are_there = spans.as_slice() == [(0, 1), (1, 2), (3, 4)].as_slice();
    Ok(are_there && scan.fault == Some(TextFault::BadNumber(5)))
}

#[test]
fn tokens_before_a_fault_are_kept(rt: HostRuntime) {
    assert!(rt; are_kept(rt.alloc()) == Ok(true));
}

// A text of 100,000 times the same sign.
fn long_text(alloc: Global, sign: char) -> Result<String<Global>, AllocError> {
    let mut text = String::new(alloc);
    for _ in 0..100_000u32 {
        text.push(sign)?;
    }
    Ok(text)
}

// The fault of 100,000 digits.
fn fault_of_digits(alloc: Global) -> Result<Option<TextFault>, AllocError> {
    let digits = long_text(alloc, '9')?;
    Ok(fault_of(alloc, &digits))
}

// The number of tokens of 100,000 signs; `None` on a fault.
fn count_of_signs(alloc: Global) -> Result<Option<usize>, AllocError> {
    let signs = long_text(alloc, '(')?;
    Ok(tokens(alloc, &signs).ok().map(|all| all.len()))
}

#[test]
fn long_texts_end(rt: HostRuntime) {
    let fault = fault_of_digits(rt.alloc());
    let count = count_of_signs(rt.alloc());
    assert!(rt; fault == Ok(Some(TextFault::BadNumber(0))) && count == Ok(Some(100_000)));
}

// Faults and their texts.
const FAULT_TEXTS: [(TextFault, &str); 4] = [
    (TextFault::BadChar(0), "text fault BadChar at 0"),
    (TextFault::BadNumber(2), "text fault BadNumber at 2"),
    (TextFault::OpenText(3), "text fault OpenText at 3"),
    (TextFault::Memory, "out of memory"),
];

// Whether a fault is displayed as this text; `None` when out of memory.
fn is_shown(alloc: Global, fault: TextFault, wanted: &str) -> Option<bool> {
    let text = format!(in alloc; "{fault}").ok()?;
    Some(text.as_str() == wanted)
}

#[test]
fn faults_have_texts(rt: HostRuntime) {
    for (fault, wanted) in &FAULT_TEXTS {
        assert!(rt;
            is_shown(rt.alloc(), *fault, wanted) == Some(true),
            "{wanted}"
        );
    }
}

// A lexeme of each kind, and then a fault.
const EACH_LEXEME: &str = "a 1 1b 1f \"b\" , ( ) + - % : ; @\n08";

// Whether 15 tokens and the fault are read, or out of memory is reported.
fn is_scan_told(heap: &Refusing<Global>) -> bool {
    match scan_text(heap, EACH_LEXEME) {
        Ok(scan) => scan.tokens.len() == 15 && scan.fault == Some(TextFault::BadNumber(32)),
        Err(AllocError) => heap.refused(),
    }
}

#[test]
fn each_refused_request_of_a_scan_is_told(rt: HostRuntime) -> Result<(), u64> {
    for passed in 0..100u64 {
        let heap = Refusing::new(rt.alloc(), passed);
        if !is_scan_told(&heap) {
            return Err(passed);
        }
        if !heap.refused() {
            assert!(rt; passed > 0, "no memory is asked for");
            return Ok(());
        }
    }
    Err(100)
}

// The lexemes of `EACH_LEXEME`.
const LEXEMES: [Lexeme; 15] = [
    Lexeme::Name("a"),
    Lexeme::Number(1, "1"),
    Lexeme::Back("1"),
    Lexeme::Ahead("1"),
    Lexeme::Text(b"\"b\""),
    Lexeme::Comma,
    Lexeme::Open,
    Lexeme::Close,
    Lexeme::Plus,
    Lexeme::Minus,
    Lexeme::Percent,
    Lexeme::Colon,
    Lexeme::Semicolon,
    Lexeme::Other(b'@'),
    Lexeme::LineEnd,
];

// The end of consecutive lexemes; else the place of the first one that differs.
fn end_of_lexemes() -> Result<usize, usize> {
    let mut at = 0;
    for wanted in &LEXEMES {
        let Next::Lexeme(lexeme, end) = next_lexeme(EACH_LEXEME, at) else {
            return Err(at);
        };
        if lexeme != *wanted {
            return Err(at);
        }
        at = end;
    }
    Ok(at)
}

#[test]
fn lexemes_stand_one_behind_the_other(rt: HostRuntime) -> Result<(), usize> {
    let end = end_of_lexemes()?;
    assert!(rt; next_lexeme(EACH_LEXEME, end) == Next::Fault);
    Ok(())
}

#[test]
fn no_lexeme_stands_at_the_end(rt: HostRuntime) {
    assert!(rt; next_lexeme(" # end", 0) == Next::End && next_lexeme("a", 2) == Next::End);
}
