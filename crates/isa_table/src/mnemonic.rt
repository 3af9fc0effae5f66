//! The 51 mnemonics, by kind of instruction, and their names. Titles are those of the Unprivileged
//! ISA.
ghost use Rattle.std.specs.Prelude.{◌≡◌, map};
ghost use Rattle.isa_table.specs.Names.{first_with_name};

use crate::table::{Row, rows};

/// A conditional branch, by its test of the registers rs1 and rs2. "Conditional Branches".
#[derive(Clone, Copy, PartialEq, Eq)]
pub enum BranchOp {
    /// Taken if rs1 and rs2 are equal.
    Beq,
    /// Taken if they differ.
    Bne,
    /// Taken if rs1 is less, both signed.
    Blt,
    /// Taken if rs1 is not less, both signed.
    Bge,
    /// Taken if rs1 is less, both unsigned.
    Bltu,
    /// Taken if rs1 is not less, both unsigned.
    Bgeu,
}

/// A load, by the value that rd gets. "Load and Store Instructions".
#[derive(Clone, Copy, PartialEq, Eq)]
pub enum LoadOp {
    /// A byte, sign-extended.
    Lb,
    /// A halfword, sign-extended.
    Lh,
    /// A word.
    Lw,
    /// A byte, zero-extended.
    Lbu,
    /// A halfword, zero-extended.
    Lhu,
}

/// A store, by what it writes. "Load and Store Instructions".
#[derive(Clone, Copy, PartialEq, Eq)]
pub enum StoreOp {
    /// The low byte of rs2.
    Sb,
    /// The low halfword of rs2.
    Sh,
    /// The word of rs2.
    Sw,
}

/// An operation on rs1 and a 12-bit immediate, by the value that rd gets. "Integer
/// Register-Immediate Instructions".
#[derive(Clone, Copy, PartialEq, Eq)]
pub enum ImmediateOp {
    /// The sum.
    Addi,
    /// 1 if rs1 is less than the immediate, both signed, else 0.
    Slti,
    /// 1 if rs1 is less than the sign-extended immediate, both unsigned, else 0.
    Sltiu,
    /// Bitwise exclusive or.
    Xori,
    /// Bitwise or.
    Ori,
    /// Bitwise and.
    Andi,
}

/// A shift of rs1 by an immediate. "Integer Register-Immediate Instructions".
#[derive(Clone, Copy, PartialEq, Eq)]
pub enum ShiftOp {
    /// Left.
    Slli,
    /// Right, logical: zeros are shifted in.
    Srli,
    /// Right, arithmetic: copies of the sign bit are shifted in.
    Srai,
}

/// An operation on rs1 and rs2, by the value that rd gets. "Integer Register-Register Operations".
#[derive(Clone, Copy, PartialEq, Eq)]
pub enum RegisterOp {
    /// The sum.
    Add,
    /// rs1 minus rs2.
    Sub,
    /// rs1 shifted left by the low five bits of rs2.
    Sll,
    /// 1 if rs1 is less than rs2, both signed, else 0.
    Slt,
    /// 1 if rs1 is less than rs2, both unsigned, else 0.
    Sltu,
    /// Bitwise exclusive or.
    Xor,
    /// rs1 shifted right by the low five bits of rs2; zeros are shifted in.
    Srl,
    /// rs1 shifted right by the low five bits of rs2; copies of its sign bit are shifted in.
    Sra,
    /// Bitwise or.
    Or,
    /// Bitwise and.
    And,
}

/// An atomic memory operation, by the value that it writes, given rs2 and the word that rd gets. A
/// extension, "Atomic Memory Operations".
#[derive(Clone, Copy, PartialEq, Eq)]
pub enum AmoOp {
    /// rs2 itself.
    Amoswap,
    /// The sum.
    Amoadd,
    /// Bitwise exclusive or.
    Amoxor,
    /// Bitwise and.
    Amoand,
    /// Bitwise or.
    Amoor,
    /// The lesser, both signed.
    Amomin,
    /// The greater, both signed.
    Amomax,
    /// The lesser, both unsigned.
    Amominu,
    /// The greater, both unsigned.
    Amomaxu,
}

/// A mnemonic of the listing: an instruction without its operands.
#[derive(Clone, Copy, PartialEq, Eq)]
pub enum Mnemonic {
    Lui,
    Auipc,
    Jal,
    Jalr,
    Branch(BranchOp),
    Load(LoadOp),
    Store(StoreOp),
    Immediate(ImmediateOp),
    Shift(ShiftOp),
    Register(RegisterOp),
    Fence,
    Ecall,
    Ebreak,
    /// LR.W. A extension, "Load-Reserved/Store-Conditional Instructions".
    LoadReserved,
    /// SC.W. A extension, "Load-Reserved/Store-Conditional Instructions".
    StoreConditional,
    Amo(AmoOp),
}

impl Mnemonic {
    ghost use Rattle.std.specs.Prelude.{◌≡◌, ◌↔◌, Some};
    ghost use Rattle.isa_table.specs.Names.{name_of};
    ghost use Rattle.isa_table.specs.declared.mnemonic.Mnemonic.{Mnemonic};

    /// The mnemonic in lower case, as in assembler sources: `beq`, `amoadd.w`.
    pub fn name(self) -> &'static str
        ensures { result.now ≡ name_of self }
    {
        match self {
            Mnemonic::Lui => "lui",
            Mnemonic::Auipc => "auipc",
            Mnemonic::Jal => "jal",
            Mnemonic::Jalr => "jalr",
            Mnemonic::Branch(BranchOp::Beq) => "beq",
            Mnemonic::Branch(BranchOp::Bne) => "bne",
            Mnemonic::Branch(BranchOp::Blt) => "blt",
            Mnemonic::Branch(BranchOp::Bge) => "bge",
            Mnemonic::Branch(BranchOp::Bltu) => "bltu",
            Mnemonic::Branch(BranchOp::Bgeu) => "bgeu",
            Mnemonic::Load(LoadOp::Lb) => "lb",
            Mnemonic::Load(LoadOp::Lh) => "lh",
            Mnemonic::Load(LoadOp::Lw) => "lw",
            Mnemonic::Load(LoadOp::Lbu) => "lbu",
            Mnemonic::Load(LoadOp::Lhu) => "lhu",
            Mnemonic::Store(StoreOp::Sb) => "sb",
            Mnemonic::Store(StoreOp::Sh) => "sh",
            Mnemonic::Store(StoreOp::Sw) => "sw",
            Mnemonic::Immediate(ImmediateOp::Addi) => "addi",
            Mnemonic::Immediate(ImmediateOp::Slti) => "slti",
            Mnemonic::Immediate(ImmediateOp::Sltiu) => "sltiu",
            Mnemonic::Immediate(ImmediateOp::Xori) => "xori",
            Mnemonic::Immediate(ImmediateOp::Ori) => "ori",
            Mnemonic::Immediate(ImmediateOp::Andi) => "andi",
            Mnemonic::Shift(ShiftOp::Slli) => "slli",
            Mnemonic::Shift(ShiftOp::Srli) => "srli",
            Mnemonic::Shift(ShiftOp::Srai) => "srai",
            Mnemonic::Register(RegisterOp::Add) => "add",
            Mnemonic::Register(RegisterOp::Sub) => "sub",
            Mnemonic::Register(RegisterOp::Sll) => "sll",
            Mnemonic::Register(RegisterOp::Slt) => "slt",
            Mnemonic::Register(RegisterOp::Sltu) => "sltu",
            Mnemonic::Register(RegisterOp::Xor) => "xor",
            Mnemonic::Register(RegisterOp::Srl) => "srl",
            Mnemonic::Register(RegisterOp::Sra) => "sra",
            Mnemonic::Register(RegisterOp::Or) => "or",
            Mnemonic::Register(RegisterOp::And) => "and",
            Mnemonic::Fence => "fence",
            Mnemonic::Ecall => "ecall",
            Mnemonic::Ebreak => "ebreak",
            Mnemonic::LoadReserved => "lr.w",
            Mnemonic::StoreConditional => "sc.w",
            Mnemonic::Amo(AmoOp::Amoswap) => "amoswap.w",
            Mnemonic::Amo(AmoOp::Amoadd) => "amoadd.w",
            Mnemonic::Amo(AmoOp::Amoxor) => "amoxor.w",
            Mnemonic::Amo(AmoOp::Amoand) => "amoand.w",
            Mnemonic::Amo(AmoOp::Amoor) => "amoor.w",
            Mnemonic::Amo(AmoOp::Amomin) => "amomin.w",
            Mnemonic::Amo(AmoOp::Amomax) => "amomax.w",
            Mnemonic::Amo(AmoOp::Amominu) => "amominu.w",
            Mnemonic::Amo(AmoOp::Amomaxu) => "amomaxu.w",
        }
    }

    /// The mnemonic with this name, or `None` if there is none. The suffixes `.aq`, `.rl` and
    /// `.aqrl` are not part of a name.
    pub fn of_name(name: &str) -> Option<Mnemonic>
        ensures { (m : Mnemonic) → (result ≡ Some m) ↔ (name.now ≡ name_of m) }
    {
        first_named(rows(), name)
    }
}

// The mnemonic of the first row whose mnemonic has this name.
#[tactic(auto, unfolding(crate::specs::Names::first_with_name))]
fn first_named(rows: &[Row], name: &str) -> Option<Mnemonic>
    ensures { result ≡ first_with_name (map (λ row. row.mnemonic) rows.now) name.now }
{
    'rows: for row in rows {
        if row.mnemonic.name() == name {
            return Some(row.mnemonic);
        }
    }
    None
}
