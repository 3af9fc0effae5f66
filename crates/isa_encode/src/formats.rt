//! The formats: the places of a word's fields. Unprivileged ISA, "Base Instruction Formats" and
//! "Immediate Encoding Variants".
ghost use Rattle.std.specs.Prelude.{◌≡◌, ◌+◌, ◌*◌, ◌/◌, ◌%◌, ◌^◌, ◌<◌};
ghost use Rattle.isa_table.specs.Ranges.{IsSignedWord};
ghost use Rattle.isa_table.specs.Spells.{bit};

use isa_table::{BranchOffset, FenceSet, Immediate12, JumpOffset, Reg, UpperImmediate, codes};

/// The word with these fields of the R format.
#[tactic(auto, using(isa_table::proofs::Or::places))]
pub(crate) fn joined(funct7: u32, rs2: u32, rs1: u32, funct3: u32, rd: u32, opcode: u32) -> u32
    requires funct7 { funct7 < 2 ^ 7 }
    requires rs2 { rs2 < 2 ^ 5 }
    requires rs1 { rs1 < 2 ^ 5 }
    requires funct3 { funct3 < 2 ^ 3 }
    requires rd { rd < 2 ^ 5 }
    requires opcode { opcode < 2 ^ 7 }
    ensures { result ≡ opcode + rd * 2 ^ 7 + funct3 * 2 ^ 12 + rs1 * 2 ^ 15
        + rs2 * 2 ^ 20 + funct7 * 2 ^ 25 }
{
    funct7 << 25 | rs2 << 20 | rs1 << 15 | funct3 << 12 | rd << 7 | opcode
}

/// The word of the R format.
pub(crate) fn r_word(funct7: u32, rs2: Reg, rs1: Reg, funct3: u32, rd: Reg, opcode: u32) -> u32
    requires funct7 { funct7 < 2 ^ 7 }
    requires funct3 { funct3 < 2 ^ 3 }
    requires opcode { opcode < 2 ^ 7 }
    ensures value { result ≡ opcode + rd * 2 ^ 7 + funct3 * 2 ^ 12 + rs1 * 2 ^ 15
        + rs2 * 2 ^ 20 + funct7 * 2 ^ 25 }
    ensures registers { (rd < 2 ^ 5) × (rs1 < 2 ^ 5) × (rs2 < 2 ^ 5) }
{
    joined(
        funct7,
        u32::from(rs2.number()),
        u32::from(rs1.number()),
        funct3,
        u32::from(rd.number()),
        opcode,
    )
}

/// The word of the I format.
pub(crate) fn i_word(imm: Immediate12, rs1: Reg, funct3: u32, rd: Reg, opcode: u32) -> u32
    requires funct3 { funct3 < 2 ^ 3 }
    requires opcode { opcode < 2 ^ 7 }
    ensures value { result ≡ opcode + rd * 2 ^ 7 + funct3 * 2 ^ 12 + rs1 * 2 ^ 15
        + imm % 2 ^ 12 * 2 ^ 20 }
    ensures registers { (rd < 2 ^ 5) × (rs1 < 2 ^ 5) }
    ensures immediate { IsSignedWord 12 imm }
{
    let imm = imm.word();
    joined(
        (imm >> 5) & 0x7f,
        imm & 0x1f,
        u32::from(rs1.number()),
        funct3,
        u32::from(rd.number()),
        opcode,
    )
}

/// The word of the S format.
pub(crate) fn s_word(imm: Immediate12, rs2: Reg, rs1: Reg, funct3: u32, opcode: u32) -> u32
    requires funct3 { funct3 < 2 ^ 3 }
    requires opcode { opcode < 2 ^ 7 }
    ensures value { result ≡ opcode + imm % 2 ^ 5 * 2 ^ 7 + funct3 * 2 ^ 12 + rs1 * 2 ^ 15
        + rs2 * 2 ^ 20 + imm / 2 ^ 5 % 2 ^ 7 * 2 ^ 25 }
    ensures registers { (rs1 < 2 ^ 5) × (rs2 < 2 ^ 5) }
    ensures immediate { IsSignedWord 12 imm }
{
    let imm = imm.word();
    joined(
        (imm >> 5) & 0x7f,
        u32::from(rs2.number()),
        u32::from(rs1.number()),
        funct3,
        imm & 0x1f,
        opcode,
    )
}

/// The word of the B format.
pub(crate) fn b_word(offset: BranchOffset, rs2: Reg, rs1: Reg, funct3: u32, opcode: u32) -> u32
    requires funct3 { funct3 < 2 ^ 3 }
    requires opcode { opcode < 2 ^ 7 }
    ensures value { result ≡ opcode + offset / 2 ^ 11 % 2 * 2 ^ 7 + offset / 2 % 2 ^ 4 * 2 ^ 8
        + funct3 * 2 ^ 12 + rs1 * 2 ^ 15 + rs2 * 2 ^ 20
        + offset / 2 ^ 5 % 2 ^ 6 * 2 ^ 25 + offset / 2 ^ 12 % 2 * 2 ^ 31 }
    ensures registers { (rs1 < 2 ^ 5) × (rs2 < 2 ^ 5) }
    ensures offset { IsSignedWord 13 offset × (offset % 2 ≡ 0) }
{
    let offset = offset.word();
    let high = ((offset >> 12) & 0x1) << 6 | (offset >> 5) & 0x3f;
    let low = ((offset >> 1) & 0xf) << 1 | (offset >> 11) & 0x1;
    joined(
        high,
        u32::from(rs2.number()),
        u32::from(rs1.number()),
        funct3,
        low,
        opcode,
    )
}

/// The word of the U format.
#[tactic(auto, using(isa_table::proofs::Or::places))]
pub(crate) fn u_word(imm: UpperImmediate, rd: Reg, opcode: u32) -> u32
    requires { opcode < 2 ^ 7 }
    ensures value { result ≡ opcode + rd * 2 ^ 7 + imm * 2 ^ 12 }
    ensures operands { (rd < 2 ^ 5) × (imm < 2 ^ 20) }
{
    imm.high() << 12 | u32::from(rd.number()) << 7 | opcode
}

/// The word of the J format.
#[tactic(auto, using(isa_table::proofs::Or::places))]
pub(crate) fn j_word(offset: JumpOffset, rd: Reg, opcode: u32) -> u32
    requires { opcode < 2 ^ 7 }
    ensures value { result ≡ opcode + rd * 2 ^ 7 + offset / 2 ^ 12 % 2 ^ 8 * 2 ^ 12
        + offset / 2 ^ 11 % 2 * 2 ^ 20 + offset / 2 % 2 ^ 10 * 2 ^ 21
        + offset / 2 ^ 20 % 2 * 2 ^ 31 }
    ensures register { rd < 2 ^ 5 }
    ensures offset { IsSignedWord 21 offset × (offset % 2 ≡ 0) }
{
    let offset = offset.word();
    jump_field(offset) << 12 | u32::from(rd.number()) << 7 | opcode
}

// Bits 31 to 12 of a jump.
#[tactic(auto, using(isa_table::proofs::Or::places))]
fn jump_field(offset: u32) -> u32
    ensures { result ≡ offset / 2 ^ 12 % 2 ^ 8 + offset / 2 ^ 11 % 2 * 2 ^ 8
        + offset / 2 % 2 ^ 10 * 2 ^ 9 + offset / 2 ^ 20 % 2 * 2 ^ 19 }
{
    ((offset >> 20) & 0x1) << 19
        | ((offset >> 1) & 0x3ff) << 9
        | ((offset >> 11) & 0x1) << 8
        | (offset >> 12) & 0xff
}

/// The word of a fence.
#[tactic(auto, using(isa_table::proofs::Or::places))]
pub(crate) fn fence_word(mode: FenceSet, pred: FenceSet, succ: FenceSet, rs1: Reg, rd: Reg) -> u32
    ensures value { result ≡ 0x0f + rd * 2 ^ 7 + rs1 * 2 ^ 15
        + succ * 2 ^ 20 + pred * 2 ^ 24 + mode * 2 ^ 28 }
    ensures registers { (rs1 < 2 ^ 5) × (rd < 2 ^ 5) }
    ensures sets { (mode < 2 ^ 4) × (pred < 2 ^ 4) × (succ < 2 ^ 4) }
{
    u32::from(mode.bits()) << 28
        | u32::from(pred.bits()) << 24
        | u32::from(succ.bits()) << 20
        | u32::from(rs1.number()) << 15
        | u32::from(rd.number()) << 7
        | codes::OPCODE_FENCE
}

/// Bits 31 to 25 of an instruction of the A extension.
#[tactic(auto, using(isa_table::proofs::Or::places))]
pub(crate) fn atomic_funct7(funct5: u32, aq: bool, rl: bool) -> u32
    requires { funct5 < 2 ^ 5 }
    ensures value { result ≡ funct5 * 4 + bit aq * 2 + bit rl }
    ensures range { result < 2 ^ 7 }
{
    funct5 << 2 | u32::from(aq) << 1 | u32::from(rl)
}
