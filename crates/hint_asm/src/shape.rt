//! The operands that each instruction takes.

/// A kind of operand.
#[derive(Clone, Copy, PartialEq, Eq)]
pub(crate) enum Operand {
    Register,
    Immediate,
    Amount,
    Upper,
    /// A label, a local label or an address.
    Target,
    /// `imm(rs)`
    Address,
    /// `(rs)`
    Place,
    /// A number of 32 bits.
    Number,
    /// A symbol, for `la` also with a number.
    Symbol,
}

impl Operand {
    /// Its name in documents.
    pub(crate) fn name(self) -> &'static str {
        match self {
            Operand::Register => "a register",
            Operand::Immediate => "a number from -2048 to 2047",
            Operand::Amount => "a number from 0 to 31",
            Operand::Upper => "a number from 0 to 1048575",
            Operand::Target => "a label",
            Operand::Address => "an address as 4(sp)",
            Operand::Place => "an address as (a0), without a number",
            Operand::Number => "a number",
            Operand::Symbol => "a name",
        }
    }
}

/// The operands of instructions with the same syntax.
#[derive(Clone, Copy, PartialEq, Eq)]
pub(crate) enum Shape {
    Upper,
    Jump,
    JumpRegister,
    Branch,
    Memory,
    Immediate,
    Shift,
    Registers,
    Fence,
    Nothing,
    Reserved,
    Atomic,
    Two,
    Zero,
    Target,
    One,
    Load,
    Address,
    Call,
    Directive,
}

/// The range of the numbers of instructions or directives.
#[derive(Clone, Copy)]
pub(crate) struct Range {
    pub(crate) from: i64,
    pub(crate) to: i64,
}

// The numbers of 32 bits, signed or unsigned.
const WORDS: Option<Range> = Some(Range {
    from: -2147483648,
    to: 4294967295,
});

// The signed numbers of 12 bits.
const IMMEDIATES: Option<Range> = Some(Range {
    from: -2048,
    to: 2047,
});

/// Instructions or directives with the same syntax.
#[derive(Clone, Copy)]
pub(crate) struct Row {
    pub(crate) shape: Shape,
    pub(crate) names: &'static [&'static str],
    /// Their operands in documents' notation.
    pub(crate) takes: &'static str,
    /// Their operands in order; none for fences, and for directives, whose number of operands
    /// varies.
    pub(crate) operands: &'static [Operand],
    /// The range of their numbers; `None` for those that take none, and for labels.
    pub(crate) range: Option<Range>,
}

// The endings of an atomic instruction's name.
const SUFFIXES: [&str; 3] = [".aqrl", ".aq", ".rl"];

// An atomic instruction's name without its ending.
fn plain_name(name: &str) -> &str {
    'suffixes: for suffix in SUFFIXES {
        if let Some(front) = name.strip_suffix(suffix) {
            return front;
        }
    }
    name
}

// The first row with a name.
fn row_in<'r>(rows: &'r [Row], name: &str) -> Option<&'r Row> {
    'rows: for row in rows {
        if row.names.contains(&name) {
            return Some(row);
        }
    }
    None
}

/// The rows of directives for a name that begins with a point, else those of instructions.
pub(crate) fn rows_for(name: &str) -> &'static [Row] {
    if name.starts_with(".") {
        &DIRECTIVES
    } else {
        &INSTRUCTIONS
    }
}

/// The row of an instruction or of a known directive; `None` for another name.
pub(crate) fn row_of(name: &str) -> Option<&'static Row> {
    row_in(rows_for(name), plain_name(name))
}

/// The shape of an instruction or of a directive; `None` for another name.
pub(crate) fn shape_of(name: &str) -> Option<Shape> {
    let row = row_of(name)?;
    Some(row.shape)
}

const INSTRUCTIONS: [Row; 19] = [
    Row {
        shape: Shape::Upper,
        names: &["lui", "auipc"],
        takes: "rd, number",
        operands: &[Operand::Register, Operand::Upper],
        range: Some(Range {
            from: 0,
            to: 1048575,
        }),
    },
    Row {
        shape: Shape::Jump,
        names: &["jal"],
        takes: "rd, label",
        operands: &[Operand::Register, Operand::Target],
        range: None,
    },
    Row {
        shape: Shape::JumpRegister,
        names: &["jalr"],
        takes: "rd, imm(rs)",
        operands: &[Operand::Register, Operand::Address],
        range: IMMEDIATES,
    },
    Row {
        shape: Shape::Branch,
        names: &[
            "beq", "bne", "blt", "bge", "bltu", "bgeu", "bgt", "ble", "bgtu", "bleu",
        ],
        takes: "rs1, rs2, label",
        operands: &[Operand::Register, Operand::Register, Operand::Target],
        range: None,
    },
    Row {
        shape: Shape::Memory,
        names: &["lb", "lh", "lw", "lbu", "lhu", "sb", "sh", "sw"],
        takes: "register, imm(rs)",
        operands: &[Operand::Register, Operand::Address],
        range: IMMEDIATES,
    },
    Row {
        shape: Shape::Immediate,
        names: &["addi", "slti", "sltiu", "xori", "ori", "andi"],
        takes: "rd, rs, number",
        operands: &[Operand::Register, Operand::Register, Operand::Immediate],
        range: IMMEDIATES,
    },
    Row {
        shape: Shape::Shift,
        names: &["slli", "srli", "srai"],
        takes: "rd, rs, amount",
        operands: &[Operand::Register, Operand::Register, Operand::Amount],
        range: Some(Range { from: 0, to: 31 }),
    },
    Row {
        shape: Shape::Registers,
        names: &[
            "add", "sub", "sll", "slt", "sltu", "xor", "srl", "sra", "or", "and",
        ],
        takes: "rd, rs1, rs2",
        operands: &[Operand::Register, Operand::Register, Operand::Register],
        range: None,
    },
    Row {
        shape: Shape::Fence,
        names: &["fence"],
        takes: "nothing, or two of the sets of iorw, as rw, w",
        operands: &[],
        range: None,
    },
    Row {
        shape: Shape::Nothing,
        names: &["nop", "ret", "fence.tso", "ecall", "ebreak"],
        takes: "nothing",
        operands: &[],
        range: None,
    },
    Row {
        shape: Shape::Reserved,
        names: &["lr.w"],
        takes: "rd, (rs)",
        operands: &[Operand::Register, Operand::Place],
        range: None,
    },
    Row {
        shape: Shape::Atomic,
        names: &[
            "sc.w",
            "amoswap.w",
            "amoadd.w",
            "amoxor.w",
            "amoand.w",
            "amoor.w",
            "amomin.w",
            "amomax.w",
            "amominu.w",
            "amomaxu.w",
        ],
        takes: "rd, rs2, (rs1)",
        operands: &[Operand::Register, Operand::Register, Operand::Place],
        range: None,
    },
    Row {
        shape: Shape::Two,
        names: &["mv", "not", "neg", "seqz", "snez", "sltz", "sgtz"],
        takes: "rd, rs",
        operands: &[Operand::Register, Operand::Register],
        range: None,
    },
    Row {
        shape: Shape::Zero,
        names: &["beqz", "bnez", "bgez", "bltz", "blez", "bgtz"],
        takes: "rs, label",
        operands: &[Operand::Register, Operand::Target],
        range: None,
    },
    Row {
        shape: Shape::Target,
        names: &["j"],
        takes: "label",
        operands: &[Operand::Target],
        range: None,
    },
    Row {
        shape: Shape::One,
        names: &["jr"],
        takes: "rs",
        operands: &[Operand::Register],
        range: None,
    },
    Row {
        shape: Shape::Load,
        names: &["li"],
        takes: "rd, number",
        operands: &[Operand::Register, Operand::Number],
        range: WORDS,
    },
    Row {
        shape: Shape::Address,
        names: &["la"],
        takes: "rd, name",
        operands: &[Operand::Register, Operand::Symbol],
        range: None,
    },
    Row {
        shape: Shape::Call,
        names: &["call", "tail"],
        takes: "name",
        operands: &[Operand::Symbol],
        range: None,
    },
];

const DIRECTIVES: [Row; 8] = [
    Row {
        shape: Shape::Nothing,
        names: &[".text", ".data", ".bss"],
        takes: "nothing",
        operands: &[],
        range: None,
    },
    Row {
        shape: Shape::Directive,
        names: &[".word"],
        takes: "values with commas between",
        operands: &[],
        range: WORDS,
    },
    Row {
        shape: Shape::Directive,
        names: &[".half"],
        takes: "values with commas between",
        operands: &[],
        range: Some(Range {
            from: -32768,
            to: 65535,
        }),
    },
    Row {
        shape: Shape::Directive,
        names: &[".byte"],
        takes: "values with commas between",
        operands: &[],
        range: Some(Range {
            from: -128,
            to: 255,
        }),
    },
    Row {
        shape: Shape::Directive,
        names: &[".ascii", ".asciz", ".string"],
        takes: "values with commas between",
        operands: &[],
        range: WORDS,
    },
    Row {
        shape: Shape::Directive,
        names: &[".zero", ".space", ".skip"],
        takes: "values with commas between",
        operands: &[],
        range: Some(Range {
            from: 0,
            to: 16777216,
        }),
    },
    Row {
        shape: Shape::Directive,
        names: &[".align", ".p2align"],
        takes: "values with commas between",
        operands: &[],
        range: Some(Range { from: 0, to: 12 }),
    },
    Row {
        shape: Shape::Directive,
        names: &[".globl", ".global", ".section"],
        takes: "values with commas between",
        operands: &[],
        range: WORDS,
    },
];
