//! Statements. A pseudo-instruction that is always one instruction is parsed as that instruction.
use crate::items::Items;
use crate::name::Name;
use crate::operand::{Immediate, Target, Upper, Value};
use isa_table::{BranchOp, ImmediateOp, Instr, LoadOp, Reg, ShiftOp, StoreOp};
use std::alloc::Allocator;
use std::marker::Model;

/// The sections of a program.
#[derive(Clone, Copy, PartialEq, Eq)]
pub enum Section {
    /// Instructions: `.text`.
    Text,
    /// Writable bytes: `.data`, and `.rodata` too.
    Data,
    /// Zero bytes that take no space in the file: `.bss`.
    Zeros,
}

/// An instruction whose operands have no values yet.
#[derive(Drop)]
pub enum Instruction<'a> {
    /// An instruction whose operands need no values: registers, fences, ECALL, EBREAK and the A
    /// extension.
    Fixed(Instr),
    Lui {
        rd: Reg,
        imm: Upper<'a>,
    },
    Auipc {
        rd: Reg,
        imm: Upper<'a>,
    },
    Jal {
        rd: Reg,
        target: Target<'a>,
    },
    Jalr {
        rd: Reg,
        rs1: Reg,
        imm: Immediate<'a>,
    },
    Branch {
        op: BranchOp,
        rs1: Reg,
        rs2: Reg,
        target: Target<'a>,
    },
    Load {
        op: LoadOp,
        rd: Reg,
        rs1: Reg,
        imm: Immediate<'a>,
    },
    Store {
        op: StoreOp,
        rs1: Reg,
        rs2: Reg,
        imm: Immediate<'a>,
    },
    Immediate {
        op: ImmediateOp,
        rd: Reg,
        rs1: Reg,
        imm: Immediate<'a>,
    },
    /// The amount must be from 0 to 31.
    Shift {
        op: ShiftOp,
        rd: Reg,
        rs1: Reg,
        amount: i64,
    },
}

/// A pseudo-instruction whose instructions depend on its operand's value.
#[derive(Drop)]
pub enum Pseudo<'a> {
    /// `li rd, n`: rd gets the number modulo 2^32; a number below -2^31 is out of range.
    Li {
        rd: Reg,
        number: i64,
    },
    /// `la rd, x`: rd gets the sum of a symbol's address and a number.
    La {
        rd: Reg,
        name: Name<'a>,
        offset: i64,
    },
    /// `call x`: a jump to a symbol; ra gets the address after it.
    Call {
        name: Name<'a>,
    },
    /// `tail x`: a jump to a symbol through t1.
    Tail {
        name: Name<'a>,
    },
}

/// A directive that makes bytes or selects their section.
#[derive(Drop)]
pub enum Directive<'a, A: Allocator> {
    /// `.text`, `.data`, `.bss`, `.section`: the section of the following statements.
    Section(Section),
    /// `.align`, `.p2align`: zero bytes or nops up to a multiple of 2^n; n must be at most 12.
    Align(u32),
    /// `.zero`, `.space`, `.skip`: this many zero bytes.
    Zero(u32),
    /// `.word`: four bytes a value; a number must be from -2^31 to 2^32 - 1.
    Words(Items<Value<'a>, A>),
    /// `.half`: two bytes a number, which must be from -2^15 to 2^16 - 1.
    Halves(Items<i64, A>),
    /// `.byte`: a byte a number, which must be from -2^7 to 2^8 - 1.
    Bytes(Items<i64, A>),
    /// `.ascii`, `.asciz`, `.string`: the bytes of the strings, with the zero bytes after them.
    Ascii(Items<u8, A>),
    /// `.globl`, `.global`: the symbols with these names are global.
    Global(Items<Name<'a>, A>),
}

/// The body of a statement. An ignored directive has none; a label is a statement of its own.
#[derive(Drop)]
pub enum Body<'a, A: Allocator> {
    /// `name:`
    Label(Name<'a>),
    /// `1:`, a numeric label that is local to its source.
    LocalLabel(Name<'a>),
    Instruction(Instruction<'a>),
    Pseudo(Pseudo<'a>),
    Directive(Directive<'a, A>),
}

/// A statement and the place where it begins.
#[derive(Drop)]
pub struct Statement<'a, A: Allocator> {
    /// The index of its source, from 0.
    pub source: usize,
    /// Its line, from 1.
    pub line: usize,
    pub body: Body<'a, A>,
}

impl<'a, A: Allocator> Model for Statement<'a, A> {
    ghost use Rattle.asm_statement.specs.Statement.{StatementValue, body_value};

    ghost Value = { StatementValue };

    ghost view = { λ s. record { source = s.source; line = s.line; body = body_value s.body } };
}
