//! The hint on a name that no register has.

use crate::lines::word_of;
use debug_text::{decimal_of, register_named};
use hint_text::Part::{First, Second, Words};
use hint_text::{Form, Sentence, nearest};
use isa_names::abi_name;
use isa_table::Reg;
use std::alloc::{AllocError, Allocator};

// A name that no register has, with and without the nearest one.
const NO_REGISTER: Form = &[
    First,
    Words(
        " is no register: write x0 to x31, or zero, ra, sp, gp, tp, t0 to t6, s0 to s11, a0 to a7, pc\n",
    ),
];

const NEAR_REGISTER: Form = &[
    First,
    Words(" is no register: is "),
    Second,
    Words(
        " meant? there are x0 to x31, or zero, ra, sp, gp, tp, t0 to t6, s0 to s11, a0 to a7, and pc\n",
    ),
];

// A register with a smaller edit distance may be the intended one: names are short.
const EDITS: usize = 2;

/// The first word behind the hart's number of a line of `regs` that no register has as its name.
pub(crate) fn unnamed_register(line: &str) -> Option<&str> {
    if word_of(line, 0) != Some("regs") || decimal_of(word_of(line, 1)?.as_bytes()).is_none() {
        return None;
    }
    line.split(' ')
        .filter(|word| !word.is_empty())
        .skip(2)
        .find(|word| register_named(word.as_bytes()).is_none())
}

/// The hint on a name that no register has.
pub(crate) fn no_register<'a, A: Allocator + Copy>(
    alloc: A,
    name: &'a str,
) -> Result<Sentence<'a>, AllocError> {
    let mut names = Vec::new(alloc);
    'registers: for number in 0..32u8 {
        names.push(abi_name(Reg::new(number)))?;
    }
    names.push("pc")?;
    Ok(match nearest(alloc, &names, name, EDITS)? {
        Some(near) => Sentence::of_two(NEAR_REGISTER, name, near),
        None => Sentence::of(NO_REGISTER, name),
    })
}
