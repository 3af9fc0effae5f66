//! Explains which clause of its object's rule a run breaks.

use hart_step::{Hart, HartState};
use isa_names::Word;
use machine::Choice;
use object_library::Kind;
use std::alloc::{AllocError, Allocator};

// The indices of a0 and a1 among the registers.
const A0: usize = 10;

const A1: usize = 11;

/// What a rule is judged by: the inputs of a run, its choices, and its harts at the end.
#[derive(Clone, Copy)]
pub(crate) struct Judged<'a> {
    pub(crate) kind: Kind,
    pub(crate) inputs: &'a [u32],
    pub(crate) choices: &'a [Choice],
    pub(crate) harts: &'a [Hart],
}

// Another hart that has exited, and its value.
#[derive(Clone, Copy)]
struct Other {
    number: usize,
    value: u32,
}

// A clause that a hart breaks; the names are those of the rules' definitions.
#[derive(Clone, Copy)]
enum Clause {
    // It has faulted.
    Sound,
    // It has exited with this value, which no chosen hart has brought.
    Valid(u32),
    // It has exited with this number in a1 in the place of 1.
    Decided(u32),
    // It has exited with this number in a1 in the place of 0 or 1.
    Answered(u32),
    // It has exited with this value, and another one with another.
    Agreed(u32, Other),
    // It has committed to this value, and another one has exited with another.
    Committed(u32, Other),
    // It has adopted, though all chosen harts have the same input.
    Convergent,
}

impl<'a> Judged<'a> {
    // The first clause that a hart breaks.
    fn broken_by(&self, hart: &Hart) -> Option<Clause> {
        match hart.state {
            HartState::Running => None,
            HartState::Faulted(_) => Some(Clause::Sound),
            HartState::Exited(_) => self.broken_by_exit(hart.registers[A0], hart.registers[A1]),
        }
    }

    // The first clause that a hart breaks by exiting with these a0 and a1.
    fn broken_by_exit(&self, value: u32, flag: u32) -> Option<Clause> {
        if !self.is_proposed(value) {
            return Some(Clause::Valid(value));
        }
        match self.kind {
            Kind::Swap | Kind::Add | Kind::LrSc => self.broken_by_decision(value, flag),
            Kind::AdoptCommit | Kind::Rounds => self.broken_by_answer(value, flag),
        }
    }

    // The same of consensus.
    fn broken_by_decision(&self, value: u32, flag: u32) -> Option<Clause> {
        if flag != 1 {
            return Some(Clause::Decided(flag));
        }
        let other = self.other_than(value)?;
        Some(Clause::Agreed(value, other))
    }

    // The same of adopt-commit.
    fn broken_by_answer(&self, value: u32, flag: u32) -> Option<Clause> {
        match flag {
            0 if self.are_alike() => Some(Clause::Convergent),
            0 => None,
            1 => {
                let other = self.other_than(value)?;
                Some(Clause::Committed(value, other))
            }
            _ => Some(Clause::Answered(flag)),
        }
    }

    // The first hart that has exited with another value.
    fn other_than(&self, value: u32) -> Option<Other> {
        'harts: for (number, hart) in self.harts.iter().enumerate() {
            if let HartState::Exited(_) = hart.state
                && hart.registers[A0] != value
            {
                let value = hart.registers[A0];
                return Some(Other { number, value });
            }
        }
        None
    }

    // Whether a value is the input of a chosen hart.
    fn is_proposed(&self, value: u32) -> bool {
        'choices: for choice in self.choices {
            if self.input_of(*choice) == Some(value) {
                return true;
            }
        }
        false
    }

    // Whether all chosen harts have the same input.
    fn are_alike(&self) -> bool {
        let Some(first) = self.choices.first() else {
            return true;
        };
        'choices: for choice in self.choices {
            if self.input_of(*choice) != self.input_of(*first) {
                return false;
            }
        }
        true
    }

    // The input of a choice's hart.
    fn input_of(&self, choice: Choice) -> Option<u32> {
        self.inputs.get(choice.hart as usize).copied()
    }
}

/// Adds a line on the first clause that a hart breaks, and how; none if the rule is kept.
pub(crate) fn push_broken<A: Allocator>(
    text: &mut String<A>,
    judged: &Judged<'_>,
) -> Result<(), AllocError> {
    'harts: for (number, hart) in judged.harts.iter().enumerate() {
        if let Some(clause) = judged.broken_by(hart) {
            return push_clause(text, number, clause);
        }
    }
    Ok(())
}

// Adds the line of a clause that a hart breaks.
fn push_clause<A: Allocator>(
    text: &mut String<A>,
    number: usize,
    clause: Clause,
) -> Result<(), AllocError> {
    let name = name_of(clause);
    write!(text, "the rule's clause {name} is broken: hart {number} ")?;
    match clause {
        Clause::Sound => text.push_str("has faulted")?,
        Clause::Valid(value) => push_value(text, value, ", the input of no hart that was chosen")?,
        Clause::Decided(flag) => push_flag(text, flag, ", and not with 1")?,
        Clause::Answered(flag) => push_flag(text, flag, ", and neither with 0 nor with 1")?,
        Clause::Agreed(value, other) => push_other(text, "has exited with", value, "with", other)?,
        Clause::Committed(value, other) => push_other(
            text,
            "has committed to",
            value,
            "has exited with",
            other,
        )?,
        Clause::Convergent => {
            text.push_str("has not committed, and all chosen harts have the same input")?;
        }
    }
    text.push('\n')
}

// The name of a clause.
fn name_of(clause: Clause) -> &'static str {
    match clause {
        Clause::Sound => "sound",
        Clause::Valid(_) => "valid",
        Clause::Decided(_) => "decided",
        Clause::Answered(_) => "answered",
        Clause::Agreed(_, _) => "agreed",
        Clause::Committed(_, _) => "committed",
        Clause::Convergent => "convergent",
    }
}

// Adds what a hart has exited with in a0.
fn push_value<A: Allocator>(text: &mut String<A>, value: u32, why: &str) -> Result<(), AllocError> {
    let value = Word(value);
    write!(text, "has exited with {value} in a0{why}")
}

// Adds what a hart has exited with in a1.
fn push_flag<A: Allocator>(text: &mut String<A>, flag: u32, why: &str) -> Result<(), AllocError> {
    let flag = Word(flag);
    write!(text, "has exited with {flag} in a1{why}")
}

// Adds the values of two harts.
fn push_other<A: Allocator>(
    text: &mut String<A>,
    does: &str,
    value: u32,
    also: &str,
    other: Other,
) -> Result<(), AllocError> {
    let (value, number, others) = (Word(value), other.number, Word(other.value));
    write!(text, "{does} {value}, and hart {number} {also} {others}")
}
