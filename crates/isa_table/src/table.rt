//! The table of encodings. Unprivileged ISA, "RV32/64G Instruction Set Listings".
ghost use Rattle.std.specs.Prelude.{◌≡◌, map};
ghost use Rattle.isa_table.specs.Table.{rows, encoding};

use crate::mnemonic::{
    AmoOp, BranchOp, ImmediateOp, LoadOp, Mnemonic, RegisterOp, ShiftOp, StoreOp,
};

/// The operand that a field of a word holds.
#[derive(Clone, Copy, PartialEq, Eq)]
pub enum Operand {
    /// The destination register.
    Rd,
    /// The first source register.
    Rs1,
    /// The second source register.
    Rs2,
    /// The immediate: in the U format its upper 20 bits, else the word that it is extended to.
    Immediate,
    /// The shift amount of a shift by an immediate.
    Amount,
    /// The mode of a fence, fm.
    Mode,
    /// The predecessor set of a fence: I, O, R, W from the high bit.
    Pred,
    /// The successor set of a fence: I, O, R, W from the high bit.
    Succ,
    /// Acquire.
    Aq,
    /// Release.
    Rl,
}

/// A field: bits `low` to `low + width - 1` of an operand stand in the word from bit `place` on. A
/// split immediate has several fields.
#[derive(Clone, Copy, PartialEq, Eq)]
pub struct Field {
    /// The operand that the bits belong to.
    pub operand: Operand,
    /// The operand's lowest bit in this field.
    pub low: u32,
    /// The word's lowest bit in this field.
    pub place: u32,
    /// The number of bits.
    pub width: u32,
}

/// A row: the word with zeros for the operands, and the fields of the operands.
#[derive(Clone, Copy)]
pub struct Row {
    /// The mnemonic that the row encodes.
    pub mnemonic: Mnemonic,
    /// The word with zeros for the operands.
    pub fixed: u32,
    /// The fields of the operands; none overlaps another or a fixed bit that is set.
    pub fields: &'static [Field],
}

macro_rules! field {
    ($operand:ident, $low:literal, $place:literal, $width:literal) => {
        Field {
            operand: Operand::$operand,
            low: $low,
            place: $place,
            width: $width,
        }
    };
}

macro_rules! row {
    ($kind:ident($op:expr), $fixed:literal, $fields:ident) => {
        Row {
            mnemonic: Mnemonic::$kind($op),
            fixed: $fixed,
            fields: $fields,
        }
    };
    ($kind:ident, $fixed:literal, $fields:ident) => {
        Row {
            mnemonic: Mnemonic::$kind,
            fixed: $fixed,
            fields: $fields,
        }
    };
}

// ---- formats; of each field: operand, low, place, width
const RD: Field = field!(Rd, 0, 7, 5);

const RS1: Field = field!(Rs1, 0, 15, 5);

const RS2: Field = field!(Rs2, 0, 20, 5);

const AQ: Field = field!(Aq, 0, 26, 1);

const RL: Field = field!(Rl, 0, 25, 1);

const NO_OPERANDS: &[Field] = &[];

const R_FORMAT: &[Field] = &[RD, RS1, RS2];

const I_FORMAT: &[Field] = &[RD, RS1, field!(Immediate, 0, 20, 12)];

const S_FORMAT: &[Field] = &[
    RS1,
    RS2,
    field!(Immediate, 0, 7, 5),
    field!(Immediate, 5, 25, 7),
];

const B_FORMAT: &[Field] = &[
    RS1,
    RS2,
    field!(Immediate, 11, 7, 1),
    field!(Immediate, 1, 8, 4),
    field!(Immediate, 5, 25, 6),
    field!(Immediate, 12, 31, 1),
];

const U_FORMAT: &[Field] = &[RD, field!(Immediate, 0, 12, 20)];

const J_FORMAT: &[Field] = &[
    RD,
    field!(Immediate, 12, 12, 8),
    field!(Immediate, 11, 20, 1),
    field!(Immediate, 1, 21, 10),
    field!(Immediate, 20, 31, 1),
];

const SHIFT_FORMAT: &[Field] = &[RD, RS1, field!(Amount, 0, 20, 5)];

const FENCE_FORMAT: &[Field] = &[
    RD,
    RS1,
    field!(Succ, 0, 20, 4),
    field!(Pred, 0, 24, 4),
    field!(Mode, 0, 28, 4),
];

const LR_FORMAT: &[Field] = &[RD, RS1, RL, AQ];

const AMO_FORMAT: &[Field] = &[RD, RS1, RS2, RL, AQ];

#[rattlefmt::skip]
static ROWS: [Row; 51] = [
    // RV32I Base Integer Instruction Set
    row!(Lui,                            0x0000_0037, U_FORMAT),
    row!(Auipc,                          0x0000_0017, U_FORMAT),
    row!(Jal,                            0x0000_006f, J_FORMAT),
    row!(Jalr,                           0x0000_0067, I_FORMAT),
    row!(Branch(BranchOp::Beq),          0x0000_0063, B_FORMAT),
    row!(Branch(BranchOp::Bne),          0x0000_1063, B_FORMAT),
    row!(Branch(BranchOp::Blt),          0x0000_4063, B_FORMAT),
    row!(Branch(BranchOp::Bge),          0x0000_5063, B_FORMAT),
    row!(Branch(BranchOp::Bltu),         0x0000_6063, B_FORMAT),
    row!(Branch(BranchOp::Bgeu),         0x0000_7063, B_FORMAT),
    row!(Load(LoadOp::Lb),               0x0000_0003, I_FORMAT),
    row!(Load(LoadOp::Lh),               0x0000_1003, I_FORMAT),
    row!(Load(LoadOp::Lw),               0x0000_2003, I_FORMAT),
    row!(Load(LoadOp::Lbu),              0x0000_4003, I_FORMAT),
    row!(Load(LoadOp::Lhu),              0x0000_5003, I_FORMAT),
    row!(Store(StoreOp::Sb),             0x0000_0023, S_FORMAT),
    row!(Store(StoreOp::Sh),             0x0000_1023, S_FORMAT),
    row!(Store(StoreOp::Sw),             0x0000_2023, S_FORMAT),
    row!(Immediate(ImmediateOp::Addi),   0x0000_0013, I_FORMAT),
    row!(Immediate(ImmediateOp::Slti),   0x0000_2013, I_FORMAT),
    row!(Immediate(ImmediateOp::Sltiu),  0x0000_3013, I_FORMAT),
    row!(Immediate(ImmediateOp::Xori),   0x0000_4013, I_FORMAT),
    row!(Immediate(ImmediateOp::Ori),    0x0000_6013, I_FORMAT),
    row!(Immediate(ImmediateOp::Andi),   0x0000_7013, I_FORMAT),
    row!(Shift(ShiftOp::Slli),           0x0000_1013, SHIFT_FORMAT),
    row!(Shift(ShiftOp::Srli),           0x0000_5013, SHIFT_FORMAT),
    row!(Shift(ShiftOp::Srai),           0x4000_5013, SHIFT_FORMAT),
    row!(Register(RegisterOp::Add),      0x0000_0033, R_FORMAT),
    row!(Register(RegisterOp::Sub),      0x4000_0033, R_FORMAT),
    row!(Register(RegisterOp::Sll),      0x0000_1033, R_FORMAT),
    row!(Register(RegisterOp::Slt),      0x0000_2033, R_FORMAT),
    row!(Register(RegisterOp::Sltu),     0x0000_3033, R_FORMAT),
    row!(Register(RegisterOp::Xor),      0x0000_4033, R_FORMAT),
    row!(Register(RegisterOp::Srl),      0x0000_5033, R_FORMAT),
    row!(Register(RegisterOp::Sra),      0x4000_5033, R_FORMAT),
    row!(Register(RegisterOp::Or),       0x0000_6033, R_FORMAT),
    row!(Register(RegisterOp::And),      0x0000_7033, R_FORMAT),
    row!(Fence,                          0x0000_000f, FENCE_FORMAT),
    row!(Ecall,                          0x0000_0073, NO_OPERANDS),
    row!(Ebreak,                         0x0010_0073, NO_OPERANDS),
    // A Extension for Atomic Instructions
    row!(LoadReserved,                   0x1000_202f, LR_FORMAT),
    row!(StoreConditional,               0x1800_202f, AMO_FORMAT),
    row!(Amo(AmoOp::Amoswap),            0x0800_202f, AMO_FORMAT),
    row!(Amo(AmoOp::Amoadd),             0x0000_202f, AMO_FORMAT),
    row!(Amo(AmoOp::Amoxor),             0x2000_202f, AMO_FORMAT),
    row!(Amo(AmoOp::Amoand),             0x6000_202f, AMO_FORMAT),
    row!(Amo(AmoOp::Amoor),              0x4000_202f, AMO_FORMAT),
    row!(Amo(AmoOp::Amomin),             0x8000_202f, AMO_FORMAT),
    row!(Amo(AmoOp::Amomax),             0xa000_202f, AMO_FORMAT),
    row!(Amo(AmoOp::Amominu),            0xc000_202f, AMO_FORMAT),
    row!(Amo(AmoOp::Amomaxu),            0xe000_202f, AMO_FORMAT),
];

/// The table: a row for each of the 51 mnemonics, in the order of the listing.
pub fn rows() -> &'static [Row; 51]
    ensures { map encoding result.now ≡ rows }
{
    &ROWS
}
