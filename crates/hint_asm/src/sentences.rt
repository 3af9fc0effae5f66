//! The sentences: what is wrong, and what to write. By default the first value of a sentence is the
//! wrong word, or the name that its statement begins with.

use hint_text::Form;
use hint_text::Part::{First, Second, Third, Words};

/// The text before a sentence: a source's path, and as the third value the line's number.
pub(crate) const HEAD: Form = &[First, Words(":"), Third, Words(":")];

/// A byte that no token begins with.
pub(crate) const BAD_BYTE: Form = &[Words(
    "this character can't stand here: outside of comments a source is printable ASCII",
)];

/// A word that begins with a digit but is no number.
pub(crate) const BAD_NUMBER: Form = &[
    First,
    Words(
        " is no number below 2^32: write decimal digits, or 0x and hexadecimal ones; a 0 in front makes the digits octal",
    ),
];

/// A string without its closing quote.
pub(crate) const OPEN_STRING: Form = &[Words(
    "the string isn't closed on its line: write a \" at its end",
)];

/// A comment of another language.
pub(crate) const COMMENT: Form = &[Words("// and /* begin no comment: write # before it")];

/// A character constant.
pub(crate) const CHARACTER: Form = &[Words(
    "there are no character constants: write the number, as 65 or 0x41 for A",
)];

/// A statement that begins with no name.
pub(crate) const NO_HEAD: Form = &[
    First,
    Words(" begins no statement: write an instruction, a directive, or a label with a colon"),
];

/// A name of another extension or assembler, and what is known of it.
pub(crate) const FOREIGN: Form = &[First, Words(" "), Second];

/// A name in capitals.
pub(crate) const CAPITALS: Form = &[
    First,
    Words(" is no instruction: instructions and registers have small letters"),
];

/// A name alone.
pub(crate) const LABEL_WITHOUT_COLON: Form = &[
    First,
    Words(" is no instruction: if it is a label, write "),
    First,
    Words(":"),
];

/// A name that is given a value.
pub(crate) const NO_VALUE: Form = &[
    Words("a name stands for an address alone: write the number where "),
    First,
    Words(" is used"),
];

/// An unknown instruction.
pub(crate) const NO_INSTRUCTION: Form = &[
    First,
    Words(" is no instruction of RV32I or A, and no pseudo-instruction"),
];

/// An unknown instruction, and a near one.
pub(crate) const NEAR_INSTRUCTION: Form = &[
    First,
    Words(" is no instruction: is "),
    Second,
    Words(" meant?"),
];

/// An unknown directive.
pub(crate) const NO_DIRECTIVE: Form = &[
    First,
    Words(" is no directive here: docs/ASSEMBLER.md lists them"),
];

/// An unknown directive, and a near one.
pub(crate) const NEAR_DIRECTIVE: Form = &[
    First,
    Words(" is no directive here: is "),
    Second,
    Words(" meant?"),
];

/// Bytes in `.bss`.
pub(crate) const NO_BYTES_IN_BSS: Form = &[Words(
    ".bss holds zeros alone: write labels, .align and .zero there, and the rest in .text or .data",
)];

/// A load of a name: the instruction, its register, and the name.
pub(crate) const LOAD_BY_NAME: Form = &[
    First,
    Words(" takes no name: write la "),
    Second,
    Words(", "),
    Third,
    Words(" first, and then "),
    First,
    Words(" "),
    Second,
    Words(", 0("),
    Second,
    Words(")"),
];

/// A store to a name: the instruction, its register, and the name.
pub(crate) const STORE_BY_NAME: Form = &[
    First,
    Words(" takes no name: write la t0, "),
    Third,
    Words(" first, and then "),
    First,
    Words(" "),
    Second,
    Words(", 0(t0)"),
];

/// A store of t0 to a name: the instruction, t0, and the name.
pub(crate) const STORE_OF_T0_BY_NAME: Form = &[
    First,
    Words(" takes no name: write la t1, "),
    Third,
    Words(" first, and then "),
    First,
    Words(" "),
    Second,
    Words(", 0(t1)"),
];

/// An operand without a comma before it.
pub(crate) const NO_COMMA: Form = &[
    Words("a comma is missing before "),
    First,
    Words("; a second statement wants a line of its own, or a ; before it"),
];

/// A wrong number of operands: the instruction, what it takes, and the number given.
pub(crate) const COUNT: Form = &[
    First,
    Words(" takes "),
    Second,
    Words(", and "),
    Third,
    Words(" operands are given"),
];

/// An operand of another kind: the instruction, what it takes, and what is expected here.
pub(crate) const WANTED: Form = &[
    Words("here "),
    First,
    Words(" takes "),
    Third,
    Words(": write "),
    First,
    Words(" "),
    Second,
];

/// An operand in parentheses that takes no number before them.
pub(crate) const NO_OFFSET: Form = &[
    First,
    Words(" takes no number before the parenthesis: add it to the register first"),
];

/// What a directive of strings takes.
pub(crate) const STRINGS: Form = &[
    First,
    Words(
        " takes strings in quotes, in which \\ stands before n, t, r, \\ or \", or before one to three octal digits",
    ),
];

/// A name, and what it takes.
pub(crate) const TAKES: Form = &[First, Words(" takes "), Second];

/// A name that is no register.
pub(crate) const NO_REGISTER: Form = &[
    First,
    Words(
        " is no register: write x0 to x31, or zero, ra, sp, gp, tp, t0 to t6, s0 to s11, a0 to a7",
    ),
];

/// A register with another name in other assemblers, and its name here.
pub(crate) const REGISTER_BY: Form = &[First, Words(" is no register: write "), Second];

/// A number out of a range: the instruction, and the range's ends.
pub(crate) const OUT_OF_RANGE: Form = &[
    First,
    Words(" takes a number from "),
    Second,
    Words(" to "),
    Third,
    Words(" here"),
];

/// A number of `addi` that takes two instructions.
pub(crate) const TOO_LARGE_IMMEDIATE: Form = &[
    First,
    Words(
        " takes a number from -2048 to 2047 here: for another one write li with a free register first",
    ),
];

/// An undefined name.
pub(crate) const UNDEFINED: Form = &[
    First,
    Words(" is nowhere defined: write "),
    First,
    Words(": before what it names"),
];

/// An undefined name, and the nearest label.
pub(crate) const NEAR_LABEL: Form = &[
    First,
    Words(" is nowhere defined: is "),
    Second,
    Words(" meant?"),
];

/// A local label that isn't defined after this place: its digits.
pub(crate) const NONE_AHEAD: Form = &[
    Words("no "),
    First,
    Words(": follows in this source; "),
    First,
    Words("b is the last one before"),
];

/// A local label that isn't defined before this place: its digits.
pub(crate) const NONE_BEFORE: Form = &[
    Words("no "),
    First,
    Words(": stands before in this source; "),
    First,
    Words("f is the next one"),
];

/// A label that is already defined: its name, and the path and line of its definition.
pub(crate) const TWICE: Form = &[
    First,
    Words(" is defined at "),
    Second,
    Words(":"),
    Third,
    Words(
        " already: take another name, or a label of digits, as 1:, which may stand again and again",
    ),
];

/// The target of a branch is too far.
pub(crate) const BRANCH_TOO_FAR: Form = &[
    First,
    Words(
        " reaches from 4096 bytes back to 4094 ahead, to even addresses: branch over a j, which reaches 1 MiB",
    ),
];

/// The target of a jump is too far.
pub(crate) const JUMP_TOO_FAR: Form = &[
    First,
    Words(" reaches 1 MiB back or ahead, to even addresses: write la t0, label and jr t0"),
];

/// An instruction at an address that isn't a multiple of 4.
pub(crate) const UNALIGNED: Form = &[Words(
    "an instruction stands at a multiple of 4: write .align 2 before it",
)];

/// The n of an alignment.
pub(crate) const ALIGNMENT: Form = &[Words(
    ".align takes 0 to 12, and goes on at a multiple of 2^n: .align 2 is for 4 bytes",
)];

/// More than 2^24 bytes.
pub(crate) const TOO_LARGE: Form = &[Words(
    "text and data have more than 16777216 bytes together: make a .zero smaller",
)];
