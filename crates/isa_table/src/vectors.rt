//! Test vectors: words assembled by GNU as 2.40, and the instructions of their texts.
ghost use Rattle.std.specs.Prelude.{◌≡◌};

use crate::mnemonic::{
    AmoOp, BranchOp, ImmediateOp, LoadOp, Mnemonic, RegisterOp, ShiftOp, StoreOp,
};

/// A word, and the mnemonic and operands of its text. An operand that the mnemonic lacks is 0.
#[derive(Clone, Copy)]
pub struct Vector {
    /// The instruction word.
    pub word: u32,
    /// The mnemonic of the text.
    pub mnemonic: Mnemonic,
    /// The register rd, 0 to 31.
    pub rd: u8,
    /// The register rs1, 0 to 31.
    pub rs1: u8,
    /// The register rs2, 0 to 31.
    pub rs2: u8,
    /// The immediate or offset as a 32-bit word; the upper 20 bits or the shift amount as written.
    /// For a fence: fm, predecessor set and successor set, four bits each. For the A extension: 2
    /// for aq plus 1 for rl.
    pub imm: u32,
}

macro_rules! row {
    ($word:literal, $kind:ident($op:expr), $rd:literal, $rs1:literal, $rs2:literal, $imm:literal) => {
        Vector {
            word: $word,
            mnemonic: Mnemonic::$kind($op),
            rd: $rd,
            rs1: $rs1,
            rs2: $rs2,
            imm: $imm,
        }
    };
    ($word:literal, $kind:ident, $rd:literal, $rs1:literal, $rs2:literal, $imm:literal) => {
        Vector {
            word: $word,
            mnemonic: Mnemonic::$kind,
            rd: $rd,
            rs1: $rs1,
            rs2: $rs2,
            imm: $imm,
        }
    };
}

/// Words that GNU as assembled from the texts beside them (`-march=rv32ia -mabi=ilp32`). The
/// operands are read from the texts; for `.insn`, which spells words without a text of their own,
/// from the manual's format.
#[rattlefmt::skip]
pub const VECTORS: [Vector; 248] = [
    row!(0x0000_0013, Immediate(ImmediateOp::Addi),   0,  0,  0, 0x0000_0000), // addi zero, zero, 0
    row!(0x0003_8a63, Branch(BranchOp::Beq),          0,  7,  0, 0x0000_0014), // beq t2, zero, .+20
    row!(0x0864_a3af, Amo(AmoOp::Amoswap),            7,  9,  6, 0x0000_0000), // amoswap.w t2, t1, (s1)
    row!(0x1004_a3af, LoadReserved,                   7,  9,  0, 0x0000_0000), // lr.w t2, (s1)
    row!(0x1864_ae2f, StoreConditional,              28,  9,  6, 0x0000_0000), // sc.w t3, t1, (s1)
    row!(0x0664_a3af, Amo(AmoOp::Amoadd),             7,  9,  6, 0x0000_0003), // amoadd.w.aqrl t2, t1, (s1)
    row!(0x0000_03b7, Lui,                            7,  0,  0, 0x0000_0000), // lui t2, 0x0
    row!(0x0000_1737, Lui,                           14,  0,  0, 0x0000_0001), // lui a4, 0x1
    row!(0x0001_1ab7, Lui,                           21,  0,  0, 0x0000_0011), // lui s5, 0x11
    row!(0x8000_0e37, Lui,                           28,  0,  0, 0x0008_0000), // lui t3, 0x80000
    row!(0x7fff_f1b7, Lui,                            3,  0,  0, 0x0007_ffff), // lui gp, 0x7ffff
    row!(0xffff_f537, Lui,                           10,  0,  0, 0x000f_ffff), // lui a0, 0xfffff
    row!(0x0000_0897, Auipc,                         17,  0,  0, 0x0000_0000), // auipc a7, 0x0
    row!(0x0000_1c17, Auipc,                         24,  0,  0, 0x0000_0001), // auipc s8, 0x1
    row!(0x0001_1f97, Auipc,                         31,  0,  0, 0x0000_0011), // auipc t6, 0x11
    row!(0x8000_0317, Auipc,                          6,  0,  0, 0x0008_0000), // auipc t1, 0x80000
    row!(0x7fff_f697, Auipc,                         13,  0,  0, 0x0007_ffff), // auipc a3, 0x7ffff
    row!(0xffff_fa17, Auipc,                         20,  0,  0, 0x000f_ffff), // auipc s4, 0xfffff
    row!(0x0020_0def, Jal,                           27,  0,  0, 0x0000_0002), // jal s11, .+2
    row!(0xffff_f16f, Jal,                            2,  0,  0, 0xffff_fffe), // jal sp, .-2
    row!(0x0040_04ef, Jal,                            9,  0,  0, 0x0000_0004), // jal s1, .+4
    row!(0x7fe0_086f, Jal,                           16,  0,  0, 0x0000_07fe), // jal a6, .+2046
    row!(0x0010_0bef, Jal,                           23,  0,  0, 0x0000_0800), // jal s7, .+2048
    row!(0x7fff_ff6f, Jal,                           30,  0,  0, 0x000f_fffe), // jal t5, .+1048574
    row!(0x8000_02ef, Jal,                            5,  0,  0, 0xfff0_0000), // jal t0, .-1048576
    row!(0x3441_266f, Jal,                           12,  0,  0, 0x0001_2344), // jal a2, .+74564
    row!(0xaaba_a9ef, Jal,                           19,  0,  0, 0xfffa_aaaa), // jal s3, .-349526
    row!(0x000b_0d67, Jalr,                          26, 22,  0, 0x0000_0000), // jalr s10, 0(s6)
    row!(0x0010_80e7, Jalr,                           1,  1,  0, 0x0000_0001), // jalr ra, 1(ra)
    row!(0xfff6_0467, Jalr,                           8, 12,  0, 0xffff_ffff), // jalr s0, -1(a2)
    row!(0x7ffb_87e7, Jalr,                          15, 23,  0, 0x0000_07ff), // jalr a5, 2047(s7)
    row!(0x8001_0b67, Jalr,                          22,  2,  0, 0xffff_f800), // jalr s6, -2048(sp)
    row!(0x5556_8ee7, Jalr,                          29, 13,  0, 0x0000_0555), // jalr t4, 1365(a3)
    row!(0xaaac_0267, Jalr,                           4, 24,  0, 0xffff_faaa), // jalr tp, -1366(s8)
    row!(0x0031_8163, Branch(BranchOp::Beq),          0,  3,  3, 0x0000_0002), // beq gp, gp, .+2
    row!(0x7f07_0fe3, Branch(BranchOp::Beq),          0, 14, 16, 0x0000_0ffe), // beq a4, a6, .+4094
    row!(0x01dc_80e3, Branch(BranchOp::Beq),          0, 25, 29, 0x0000_0800), // beq s9, t4, .+2048
    row!(0x54a2_0a63, Branch(BranchOp::Beq),          0,  4, 10, 0x0000_0554), // beq tp, a0, .+1364
    row!(0x8177_8063, Branch(BranchOp::Beq),          0, 15, 23, 0xffff_f000), // beq a5, s7, .-4096
    row!(0xfe4d_1fe3, Branch(BranchOp::Bne),          0, 26,  4, 0xffff_fffe), // bne s10, tp, .-2
    row!(0x8112_9063, Branch(BranchOp::Bne),          0,  5, 17, 0xffff_f000), // bne t0, a7, .-4096
    row!(0x81e8_11e3, Branch(BranchOp::Bne),          0, 16, 30, 0xffff_f802), // bne a6, t5, .-2046
    row!(0xaabd_95e3, Branch(BranchOp::Bne),          0, 27, 11, 0xffff_faaa), // bne s11, a1, .-1366
    row!(0x0183_10e3, Branch(BranchOp::Bne),          0,  6, 24, 0x0000_0800), // bne t1, s8, .+2048
    row!(0x0058_c163, Branch(BranchOp::Blt),          0, 17,  5, 0x0000_0002), // blt a7, t0, .+2
    row!(0x7f2e_4fe3, Branch(BranchOp::Blt),          0, 28, 18, 0x0000_0ffe), // blt t3, s2, .+4094
    row!(0x01f3_c0e3, Branch(BranchOp::Blt),          0,  7, 31, 0x0000_0800), // blt t2, t6, .+2048
    row!(0x54c9_4a63, Branch(BranchOp::Blt),          0, 18, 12, 0x0000_0554), // blt s2, a2, .+1364
    row!(0x819e_c1e3, Branch(BranchOp::Blt),          0, 29, 25, 0xffff_f802), // blt t4, s9, .-2046
    row!(0xfe64_5fe3, Branch(BranchOp::Bge),          0,  8,  6, 0xffff_fffe), // bge s0, t1, .-2
    row!(0x8139_d063, Branch(BranchOp::Bge),          0, 19, 19, 0xffff_f000), // bge s3, s3, .-4096
    row!(0x800f_51e3, Branch(BranchOp::Bge),          0, 30,  0, 0xffff_f802), // bge t5, zero, .-2046
    row!(0xaad4_d5e3, Branch(BranchOp::Bge),          0,  9, 13, 0xffff_faaa), // bge s1, a3, .-1366
    row!(0x55aa_5a63, Branch(BranchOp::Bge),          0, 20, 26, 0x0000_0554), // bge s4, s10, .+1364
    row!(0x007f_e163, Branch(BranchOp::Bltu),         0, 31,  7, 0x0000_0002), // bltu t6, t2, .+2
    row!(0x7f45_6fe3, Branch(BranchOp::Bltu),         0, 10, 20, 0x0000_0ffe), // bltu a0, s4, .+4094
    row!(0x001a_e0e3, Branch(BranchOp::Bltu),         0, 21,  1, 0x0000_0800), // bltu s5, ra, .+2048
    row!(0x54e0_6a63, Branch(BranchOp::Bltu),         0,  0, 14, 0x0000_0554), // bltu zero, a4, .+1364
    row!(0xabb5_e5e3, Branch(BranchOp::Bltu),         0, 11, 27, 0xffff_faaa), // bltu a1, s11, .-1366
    row!(0xfe8b_7fe3, Branch(BranchOp::Bgeu),         0, 22,  8, 0xffff_fffe), // bgeu s6, s0, .-2
    row!(0x8150_f063, Branch(BranchOp::Bgeu),         0,  1, 21, 0xffff_f000), // bgeu ra, s5, .-4096
    row!(0x8026_71e3, Branch(BranchOp::Bgeu),         0, 12,  2, 0xffff_f802), // bgeu a2, sp, .-2046
    row!(0xaafb_f5e3, Branch(BranchOp::Bgeu),         0, 23, 15, 0xffff_faaa), // bgeu s7, a5, .-1366
    row!(0x01c1_7163, Branch(BranchOp::Bgeu),         0,  2, 28, 0x0000_0002), // bgeu sp, t3, .+2
    row!(0x0006_8583, Load(LoadOp::Lb),              11, 13,  0, 0x0000_0000), // lb a1, 0(a3)
    row!(0x001c_0903, Load(LoadOp::Lb),              18, 24,  0, 0x0000_0001), // lb s2, 1(s8)
    row!(0xfff1_8c83, Load(LoadOp::Lb),              25,  3,  0, 0xffff_ffff), // lb s9, -1(gp)
    row!(0x7ff7_0003, Load(LoadOp::Lb),               0, 14,  0, 0x0000_07ff), // lb zero, 2047(a4)
    row!(0x800c_8383, Load(LoadOp::Lb),               7, 25,  0, 0xffff_f800), // lb t2, -2048(s9)
    row!(0x0012_1703, Load(LoadOp::Lh),              14,  4,  0, 0x0000_0001), // lh a4, 1(tp)
    row!(0xfff7_9a83, Load(LoadOp::Lh),              21, 15,  0, 0xffff_ffff), // lh s5, -1(a5)
    row!(0x7ffd_1e03, Load(LoadOp::Lh),              28, 26,  0, 0x0000_07ff), // lh t3, 2047(s10)
    row!(0x8002_9183, Load(LoadOp::Lh),               3,  5,  0, 0xffff_f800), // lh gp, -2048(t0)
    row!(0x5558_1503, Load(LoadOp::Lh),              10, 16,  0, 0x0000_0555), // lh a0, 1365(a6)
    row!(0xfffd_a883, Load(LoadOp::Lw),              17, 27,  0, 0xffff_ffff), // lw a7, -1(s11)
    row!(0x7ff3_2c03, Load(LoadOp::Lw),              24,  6,  0, 0x0000_07ff), // lw s8, 2047(t1)
    row!(0x8008_af83, Load(LoadOp::Lw),              31, 17,  0, 0xffff_f800), // lw t6, -2048(a7)
    row!(0x555e_2303, Load(LoadOp::Lw),               6, 28,  0, 0x0000_0555), // lw t1, 1365(t3)
    row!(0xaaa3_a683, Load(LoadOp::Lw),              13,  7,  0, 0xffff_faaa), // lw a3, -1366(t2)
    row!(0x7ff9_4a03, Load(LoadOp::Lbu),             20, 18,  0, 0x0000_07ff), // lbu s4, 2047(s2)
    row!(0x800e_cd83, Load(LoadOp::Lbu),             27, 29,  0, 0xffff_f800), // lbu s11, -2048(t4)
    row!(0x5554_4103, Load(LoadOp::Lbu),              2,  8,  0, 0x0000_0555), // lbu sp, 1365(s0)
    row!(0xaaa9_c483, Load(LoadOp::Lbu),              9, 19,  0, 0xffff_faaa), // lbu s1, -1366(s3)
    row!(0x000f_4803, Load(LoadOp::Lbu),             16, 30,  0, 0x0000_0000), // lbu a6, 0(t5)
    row!(0x8004_db83, Load(LoadOp::Lhu),             23,  9,  0, 0xffff_f800), // lhu s7, -2048(s1)
    row!(0x555a_5f03, Load(LoadOp::Lhu),             30, 20,  0, 0x0000_0555), // lhu t5, 1365(s4)
    row!(0xaaaf_d283, Load(LoadOp::Lhu),              5, 31,  0, 0xffff_faaa), // lhu t0, -1366(t6)
    row!(0x0005_5603, Load(LoadOp::Lhu),             12, 10,  0, 0x0000_0000), // lhu a2, 0(a0)
    row!(0x001a_d983, Load(LoadOp::Lhu),             19, 21,  0, 0x0000_0001), // lhu s3, 1(s5)
    row!(0x0090_0023, Store(StoreOp::Sb),             0,  0,  9, 0x0000_0000), // sb s1, 0(zero)
    row!(0x0165_80a3, Store(StoreOp::Sb),             0, 11, 22, 0x0000_0001), // sb s6, 1(a1)
    row!(0xfe3b_0fa3, Store(StoreOp::Sb),             0, 22,  3, 0xffff_ffff), // sb gp, -1(s6)
    row!(0x7f00_8fa3, Store(StoreOp::Sb),             0,  1, 16, 0x0000_07ff), // sb a6, 2047(ra)
    row!(0x81d6_0023, Store(StoreOp::Sb),             0, 12, 29, 0xffff_f800), // sb t4, -2048(a2)
    row!(0x00ab_8fa3, Store(StoreOp::Sb),             0, 23, 10, 0x0000_001f), // sb a0, 31(s7)
    row!(0x7f71_1fa3, Store(StoreOp::Sh),             0,  2, 23, 0x0000_07ff), // sh s7, 2047(sp)
    row!(0x8046_9023, Store(StoreOp::Sh),             0, 13,  4, 0xffff_f800), // sh tp, -2048(a3)
    row!(0x011c_1fa3, Store(StoreOp::Sh),             0, 24, 17, 0x0000_001f), // sh a7, 31(s8)
    row!(0x03e1_9023, Store(StoreOp::Sh),             0,  3, 30, 0x0000_0020), // sh t5, 32(gp)
    row!(0xfeb7_1023, Store(StoreOp::Sh),             0, 14, 11, 0xffff_ffe0), // sh a1, -32(a4)
    row!(0x558c_9aa3, Store(StoreOp::Sh),             0, 25, 24, 0x0000_0555), // sh s8, 1365(s9)
    row!(0x0252_2023, Store(StoreOp::Sw),             0,  4,  5, 0x0000_0020), // sw t0, 32(tp)
    row!(0xff27_a023, Store(StoreOp::Sw),             0, 15, 18, 0xffff_ffe0), // sw s2, -32(a5)
    row!(0x55fd_2aa3, Store(StoreOp::Sw),             0, 26, 31, 0x0000_0555), // sw t6, 1365(s10)
    row!(0xaac2_a523, Store(StoreOp::Sw),             0,  5, 12, 0xffff_faaa), // sw a2, -1366(t0)
    row!(0x0198_2023, Store(StoreOp::Sw),             0, 16, 25, 0x0000_0000), // sw s9, 0(a6)
    row!(0x006d_a0a3, Store(StoreOp::Sw),             0, 27,  6, 0x0000_0001), // sw t1, 1(s11)
    row!(0x0003_0d13, Immediate(ImmediateOp::Addi),  26,  6,  0, 0x0000_0000), // addi s10, t1, 0
    row!(0x0018_8093, Immediate(ImmediateOp::Addi),   1, 17,  0, 0x0000_0001), // addi ra, a7, 1
    row!(0xfffe_0413, Immediate(ImmediateOp::Addi),   8, 28,  0, 0xffff_ffff), // addi s0, t3, -1
    row!(0x7ff3_8793, Immediate(ImmediateOp::Addi),  15,  7,  0, 0x0000_07ff), // addi a5, t2, 2047
    row!(0x8009_0b13, Immediate(ImmediateOp::Addi),  22, 18,  0, 0xffff_f800), // addi s6, s2, -2048
    row!(0xfffe_ae93, Immediate(ImmediateOp::Slti),  29, 29,  0, 0xffff_ffff), // slti t4, t4, -1
    row!(0x7ff4_2213, Immediate(ImmediateOp::Slti),   4,  8,  0, 0x0000_07ff), // slti tp, s0, 2047
    row!(0x8009_a593, Immediate(ImmediateOp::Slti),  11, 19,  0, 0xffff_f800), // slti a1, s3, -2048
    row!(0x555f_2913, Immediate(ImmediateOp::Slti),  18, 30,  0, 0x0000_0555), // slti s2, t5, 1365
    row!(0xaaa4_ac93, Immediate(ImmediateOp::Slti),  25,  9,  0, 0xffff_faaa), // slti s9, s1, -1366
    row!(0x800a_3013, Immediate(ImmediateOp::Sltiu),  0, 20,  0, 0xffff_f800), // sltiu zero, s4, -2048
    row!(0x555f_b393, Immediate(ImmediateOp::Sltiu),  7, 31,  0, 0x0000_0555), // sltiu t2, t6, 1365
    row!(0xaaa5_3713, Immediate(ImmediateOp::Sltiu), 14, 10,  0, 0xffff_faaa), // sltiu a4, a0, -1366
    row!(0x000a_ba93, Immediate(ImmediateOp::Sltiu), 21, 21,  0, 0x0000_0000), // sltiu s5, s5, 0
    row!(0x0010_3e13, Immediate(ImmediateOp::Sltiu), 28,  0,  0, 0x0000_0001), // sltiu t3, zero, 1
    row!(0xaaa5_c193, Immediate(ImmediateOp::Xori),   3, 11,  0, 0xffff_faaa), // xori gp, a1, -1366
    row!(0x000b_4513, Immediate(ImmediateOp::Xori),  10, 22,  0, 0x0000_0000), // xori a0, s6, 0
    row!(0x0010_c893, Immediate(ImmediateOp::Xori),  17,  1,  0, 0x0000_0001), // xori a7, ra, 1
    row!(0xfff6_4c13, Immediate(ImmediateOp::Xori),  24, 12,  0, 0xffff_ffff), // xori s8, a2, -1
    row!(0x7ffb_cf93, Immediate(ImmediateOp::Xori),  31, 23,  0, 0x0000_07ff), // xori t6, s7, 2047
    row!(0x0011_6313, Immediate(ImmediateOp::Ori),    6,  2,  0, 0x0000_0001), // ori t1, sp, 1
    row!(0xfff6_e693, Immediate(ImmediateOp::Ori),   13, 13,  0, 0xffff_ffff), // ori a3, a3, -1
    row!(0x7ffc_6a13, Immediate(ImmediateOp::Ori),   20, 24,  0, 0x0000_07ff), // ori s4, s8, 2047
    row!(0x8001_ed93, Immediate(ImmediateOp::Ori),   27,  3,  0, 0xffff_f800), // ori s11, gp, -2048
    row!(0x5557_6113, Immediate(ImmediateOp::Ori),    2, 14,  0, 0x0000_0555), // ori sp, a4, 1365
    row!(0x7ffc_f493, Immediate(ImmediateOp::Andi),   9, 25,  0, 0x0000_07ff), // andi s1, s9, 2047
    row!(0x8002_7813, Immediate(ImmediateOp::Andi),  16,  4,  0, 0xffff_f800), // andi a6, tp, -2048
    row!(0x5557_fb93, Immediate(ImmediateOp::Andi),  23, 15,  0, 0x0000_0555), // andi s7, a5, 1365
    row!(0xaaad_7f13, Immediate(ImmediateOp::Andi),  30, 26,  0, 0xffff_faaa), // andi t5, s10, -1366
    row!(0x0002_f293, Immediate(ImmediateOp::Andi),   5,  5,  0, 0x0000_0000), // andi t0, t0, 0
    row!(0x0008_1613, Shift(ShiftOp::Slli),          12, 16,  0, 0x0000_0000), // slli a2, a6, 0
    row!(0x001d_9993, Shift(ShiftOp::Slli),          19, 27,  0, 0x0000_0001), // slli s3, s11, 1
    row!(0x0103_1d13, Shift(ShiftOp::Slli),          26,  6,  0, 0x0000_0010), // slli s10, t1, 16
    row!(0x01f8_9093, Shift(ShiftOp::Slli),           1, 17,  0, 0x0000_001f), // slli ra, a7, 31
    row!(0x000e_5413, Shift(ShiftOp::Srli),           8, 28,  0, 0x0000_0000), // srli s0, t3, 0
    row!(0x0013_d793, Shift(ShiftOp::Srli),          15,  7,  0, 0x0000_0001), // srli a5, t2, 1
    row!(0x0109_5b13, Shift(ShiftOp::Srli),          22, 18,  0, 0x0000_0010), // srli s6, s2, 16
    row!(0x01fe_de93, Shift(ShiftOp::Srli),          29, 29,  0, 0x0000_001f), // srli t4, t4, 31
    row!(0x4004_5213, Shift(ShiftOp::Srai),           4,  8,  0, 0x0000_0000), // srai tp, s0, 0
    row!(0x4019_d593, Shift(ShiftOp::Srai),          11, 19,  0, 0x0000_0001), // srai a1, s3, 1
    row!(0x410f_5913, Shift(ShiftOp::Srai),          18, 30,  0, 0x0000_0010), // srai s2, t5, 16
    row!(0x41f4_dc93, Shift(ShiftOp::Srai),          25,  9,  0, 0x0000_001f), // srai s9, s1, 31
    row!(0x013a_0033, Register(RegisterOp::Add),      0, 20, 19, 0x0000_0000), // add zero, s4, s3
    row!(0x000f_83b3, Register(RegisterOp::Add),      7, 31,  0, 0x0000_0000), // add t2, t6, zero
    row!(0x00d5_0733, Register(RegisterOp::Add),     14, 10, 13, 0x0000_0000), // add a4, a0, a3
    row!(0x01aa_8ab3, Register(RegisterOp::Add),     21, 21, 26, 0x0000_0000), // add s5, s5, s10
    row!(0x4070_0e33, Register(RegisterOp::Sub),     28,  0,  7, 0x0000_0000), // sub t3, zero, t2
    row!(0x4145_81b3, Register(RegisterOp::Sub),      3, 11, 20, 0x0000_0000), // sub gp, a1, s4
    row!(0x401b_0533, Register(RegisterOp::Sub),     10, 22,  1, 0x0000_0000), // sub a0, s6, ra
    row!(0x40e0_88b3, Register(RegisterOp::Sub),     17,  1, 14, 0x0000_0000), // sub a7, ra, a4
    row!(0x01b6_1c33, Register(RegisterOp::Sll),     24, 12, 27, 0x0000_0000), // sll s8, a2, s11
    row!(0x008b_9fb3, Register(RegisterOp::Sll),     31, 23,  8, 0x0000_0000), // sll t6, s7, s0
    row!(0x0151_1333, Register(RegisterOp::Sll),      6,  2, 21, 0x0000_0000), // sll t1, sp, s5
    row!(0x0026_96b3, Register(RegisterOp::Sll),     13, 13,  2, 0x0000_0000), // sll a3, a3, sp
    row!(0x00fc_2a33, Register(RegisterOp::Slt),     20, 24, 15, 0x0000_0000), // slt s4, s8, a5
    row!(0x01c1_adb3, Register(RegisterOp::Slt),     27,  3, 28, 0x0000_0000), // slt s11, gp, t3
    row!(0x0097_2133, Register(RegisterOp::Slt),      2, 14,  9, 0x0000_0000), // slt sp, a4, s1
    row!(0x016c_a4b3, Register(RegisterOp::Slt),      9, 25, 22, 0x0000_0000), // slt s1, s9, s6
    row!(0x0032_3833, Register(RegisterOp::Sltu),    16,  4,  3, 0x0000_0000), // sltu a6, tp, gp
    row!(0x0107_bbb3, Register(RegisterOp::Sltu),    23, 15, 16, 0x0000_0000), // sltu s7, a5, a6
    row!(0x01dd_3f33, Register(RegisterOp::Sltu),    30, 26, 29, 0x0000_0000), // sltu t5, s10, t4
    row!(0x00a2_b2b3, Register(RegisterOp::Sltu),     5,  5, 10, 0x0000_0000), // sltu t0, t0, a0
    row!(0x0178_4633, Register(RegisterOp::Xor),     12, 16, 23, 0x0000_0000), // xor a2, a6, s7
    row!(0x004d_c9b3, Register(RegisterOp::Xor),     19, 27,  4, 0x0000_0000), // xor s3, s11, tp
    row!(0x0113_4d33, Register(RegisterOp::Xor),     26,  6, 17, 0x0000_0000), // xor s10, t1, a7
    row!(0x01e8_c0b3, Register(RegisterOp::Xor),      1, 17, 30, 0x0000_0000), // xor ra, a7, t5
    row!(0x00be_5433, Register(RegisterOp::Srl),      8, 28, 11, 0x0000_0000), // srl s0, t3, a1
    row!(0x0183_d7b3, Register(RegisterOp::Srl),     15,  7, 24, 0x0000_0000), // srl a5, t2, s8
    row!(0x0059_5b33, Register(RegisterOp::Srl),     22, 18,  5, 0x0000_0000), // srl s6, s2, t0
    row!(0x012e_deb3, Register(RegisterOp::Srl),     29, 29, 18, 0x0000_0000), // srl t4, t4, s2
    row!(0x41f4_5233, Register(RegisterOp::Sra),      4,  8, 31, 0x0000_0000), // sra tp, s0, t6
    row!(0x40c9_d5b3, Register(RegisterOp::Sra),     11, 19, 12, 0x0000_0000), // sra a1, s3, a2
    row!(0x419f_5933, Register(RegisterOp::Sra),     18, 30, 25, 0x0000_0000), // sra s2, t5, s9
    row!(0x4064_dcb3, Register(RegisterOp::Sra),     25,  9,  6, 0x0000_0000), // sra s9, s1, t1
    row!(0x013a_6033, Register(RegisterOp::Or),       0, 20, 19, 0x0000_0000), // or zero, s4, s3
    row!(0x000f_e3b3, Register(RegisterOp::Or),       7, 31,  0, 0x0000_0000), // or t2, t6, zero
    row!(0x00d5_6733, Register(RegisterOp::Or),      14, 10, 13, 0x0000_0000), // or a4, a0, a3
    row!(0x01aa_eab3, Register(RegisterOp::Or),      21, 21, 26, 0x0000_0000), // or s5, s5, s10
    row!(0x0070_7e33, Register(RegisterOp::And),     28,  0,  7, 0x0000_0000), // and t3, zero, t2
    row!(0x0145_f1b3, Register(RegisterOp::And),      3, 11, 20, 0x0000_0000), // and gp, a1, s4
    row!(0x001b_7533, Register(RegisterOp::And),     10, 22,  1, 0x0000_0000), // and a0, s6, ra
    row!(0x00e0_f8b3, Register(RegisterOp::And),     17,  1, 14, 0x0000_0000), // and a7, ra, a4
    row!(0x0ff0_000f, Fence,                          0,  0,  0, 0x0000_00ff), // fence iorw, iorw
    row!(0x0840_000f, Fence,                          0,  0,  0, 0x0000_0084), // fence i, o
    row!(0x0480_000f, Fence,                          0,  0,  0, 0x0000_0048), // fence o, i
    row!(0x0210_000f, Fence,                          0,  0,  0, 0x0000_0021), // fence r, w
    row!(0x0120_000f, Fence,                          0,  0,  0, 0x0000_0012), // fence w, r
    row!(0x03c0_000f, Fence,                          0,  0,  0, 0x0000_003c), // fence rw, io
    row!(0x01f0_000f, Fence,                          0,  0,  0, 0x0000_001f), // fence w, iorw
    row!(0x0e70_000f, Fence,                          0,  0,  0, 0x0000_00e7), // fence ior, orw
    row!(0x8330_000f, Fence,                          0,  0,  0, 0x0000_0833), // fence.tso
    row!(0x0ff0_050f, Fence,                         10,  0,  0, 0x0000_00ff), // .insn i 0x0f, 0, a0, zero, 255
    row!(0x0ff5_800f, Fence,                          0, 11,  0, 0x0000_00ff), // .insn i 0x0f, 0, zero, a1, 255
    row!(0x123f_0f8f, Fence,                         31, 30,  0, 0x0000_0123), // .insn i 0x0f, 0, t6, t5, 291
    row!(0xfff8_008f, Fence,                          1, 16,  0, 0x0000_0fff), // .insn i 0x0f, 0, ra, a6, -1
    row!(0x0000_0073, Ecall,                          0,  0,  0, 0x0000_0000), // ecall
    row!(0x0010_0073, Ebreak,                         0,  0,  0, 0x0000_0000), // ebreak
    row!(0x1006_2c2f, LoadReserved,                  24, 12,  0, 0x0000_0000), // lr.w s8, (a2)
    row!(0x120b_afaf, LoadReserved,                  31, 23,  0, 0x0000_0001), // lr.w.rl t6, (s7)
    row!(0x1401_232f, LoadReserved,                   6,  2,  0, 0x0000_0002), // lr.w.aq t1, (sp)
    row!(0x1606_a6af, LoadReserved,                  13, 13,  0, 0x0000_0003), // lr.w.aqrl a3, (a3)
    row!(0x19bc_2a2f, StoreConditional,              20, 24, 27, 0x0000_0000), // sc.w s4, s11, (s8)
    row!(0x1a81_adaf, StoreConditional,              27,  3,  8, 0x0000_0001), // sc.w.rl s11, s0, (gp)
    row!(0x1d57_212f, StoreConditional,               2, 14, 21, 0x0000_0002), // sc.w.aq sp, s5, (a4)
    row!(0x1e2c_a4af, StoreConditional,               9, 25,  2, 0x0000_0003), // sc.w.aqrl s1, sp, (s9)
    row!(0x08f2_282f, Amo(AmoOp::Amoswap),           16,  4, 15, 0x0000_0000), // amoswap.w a6, a5, (tp)
    row!(0x0bc7_abaf, Amo(AmoOp::Amoswap),           23, 15, 28, 0x0000_0001), // amoswap.w.rl s7, t3, (a5)
    row!(0x0c9d_2f2f, Amo(AmoOp::Amoswap),           30, 26,  9, 0x0000_0002), // amoswap.w.aq t5, s1, (s10)
    row!(0x0f62_a2af, Amo(AmoOp::Amoswap),            5,  5, 22, 0x0000_0003), // amoswap.w.aqrl t0, s6, (t0)
    row!(0x0038_262f, Amo(AmoOp::Amoadd),            12, 16,  3, 0x0000_0000), // amoadd.w a2, gp, (a6)
    row!(0x030d_a9af, Amo(AmoOp::Amoadd),            19, 27, 16, 0x0000_0001), // amoadd.w.rl s3, a6, (s11)
    row!(0x05d3_2d2f, Amo(AmoOp::Amoadd),            26,  6, 29, 0x0000_0002), // amoadd.w.aq s10, t4, (t1)
    row!(0x06a8_a0af, Amo(AmoOp::Amoadd),             1, 17, 10, 0x0000_0003), // amoadd.w.aqrl ra, a0, (a7)
    row!(0x217e_242f, Amo(AmoOp::Amoxor),             8, 28, 23, 0x0000_0000), // amoxor.w s0, s7, (t3)
    row!(0x2243_a7af, Amo(AmoOp::Amoxor),            15,  7,  4, 0x0000_0001), // amoxor.w.rl a5, tp, (t2)
    row!(0x2519_2b2f, Amo(AmoOp::Amoxor),            22, 18, 17, 0x0000_0002), // amoxor.w.aq s6, a7, (s2)
    row!(0x27ee_aeaf, Amo(AmoOp::Amoxor),            29, 29, 30, 0x0000_0003), // amoxor.w.aqrl t4, t5, (t4)
    row!(0x60b4_222f, Amo(AmoOp::Amoand),             4,  8, 11, 0x0000_0000), // amoand.w tp, a1, (s0)
    row!(0x6389_a5af, Amo(AmoOp::Amoand),            11, 19, 24, 0x0000_0001), // amoand.w.rl a1, s8, (s3)
    row!(0x645f_292f, Amo(AmoOp::Amoand),            18, 30,  5, 0x0000_0002), // amoand.w.aq s2, t0, (t5)
    row!(0x6724_acaf, Amo(AmoOp::Amoand),            25,  9, 18, 0x0000_0003), // amoand.w.aqrl s9, s2, (s1)
    row!(0x41fa_202f, Amo(AmoOp::Amoor),              0, 20, 31, 0x0000_0000), // amoor.w zero, t6, (s4)
    row!(0x42cf_a3af, Amo(AmoOp::Amoor),              7, 31, 12, 0x0000_0001), // amoor.w.rl t2, a2, (t6)
    row!(0x4595_272f, Amo(AmoOp::Amoor),             14, 10, 25, 0x0000_0002), // amoor.w.aq a4, s9, (a0)
    row!(0x466a_aaaf, Amo(AmoOp::Amoor),             21, 21,  6, 0x0000_0003), // amoor.w.aqrl s5, t1, (s5)
    row!(0x8130_2e2f, Amo(AmoOp::Amomin),            28,  0, 19, 0x0000_0000), // amomin.w t3, s3, (zero)
    row!(0x8205_a1af, Amo(AmoOp::Amomin),             3, 11,  0, 0x0000_0001), // amomin.w.rl gp, zero, (a1)
    row!(0x84db_252f, Amo(AmoOp::Amomin),            10, 22, 13, 0x0000_0002), // amomin.w.aq a0, a3, (s6)
    row!(0x87a0_a8af, Amo(AmoOp::Amomin),            17,  1, 26, 0x0000_0003), // amomin.w.aqrl a7, s10, (ra)
    row!(0xa076_2c2f, Amo(AmoOp::Amomax),            24, 12,  7, 0x0000_0000), // amomax.w s8, t2, (a2)
    row!(0xa34b_afaf, Amo(AmoOp::Amomax),            31, 23, 20, 0x0000_0001), // amomax.w.rl t6, s4, (s7)
    row!(0xa411_232f, Amo(AmoOp::Amomax),             6,  2,  1, 0x0000_0002), // amomax.w.aq t1, ra, (sp)
    row!(0xa6e6_a6af, Amo(AmoOp::Amomax),            13, 13, 14, 0x0000_0003), // amomax.w.aqrl a3, a4, (a3)
    row!(0xc1bc_2a2f, Amo(AmoOp::Amominu),           20, 24, 27, 0x0000_0000), // amominu.w s4, s11, (s8)
    row!(0xc281_adaf, Amo(AmoOp::Amominu),           27,  3,  8, 0x0000_0001), // amominu.w.rl s11, s0, (gp)
    row!(0xc557_212f, Amo(AmoOp::Amominu),            2, 14, 21, 0x0000_0002), // amominu.w.aq sp, s5, (a4)
    row!(0xc62c_a4af, Amo(AmoOp::Amominu),            9, 25,  2, 0x0000_0003), // amominu.w.aqrl s1, sp, (s9)
    row!(0xe0f2_282f, Amo(AmoOp::Amomaxu),           16,  4, 15, 0x0000_0000), // amomaxu.w a6, a5, (tp)
    row!(0xe3c7_abaf, Amo(AmoOp::Amomaxu),           23, 15, 28, 0x0000_0001), // amomaxu.w.rl s7, t3, (a5)
    row!(0xe49d_2f2f, Amo(AmoOp::Amomaxu),           30, 26,  9, 0x0000_0002), // amomaxu.w.aq t5, s1, (s10)
    row!(0xe762_a2af, Amo(AmoOp::Amomaxu),            5,  5, 22, 0x0000_0003), // amomaxu.w.aqrl t0, s6, (t0)
];

/// Words that spell no instruction of RV32IA: assembled by GNU as for the named extension, or with
/// one wrong bit.
#[rattlefmt::skip]
pub const UNASSIGNED: [u32; 58] = [
    0x0205_1513, // slli a0, a0, 32 (rv64i)
    0x0205_5513, // srli a0, a0, 32 (rv64i)
    0x43f5_5513, // srai a0, a0, 63 (rv64i)
    0x0005_b503, // ld a0, 0(a1) (rv64i)
    0x0005_e503, // lwu a0, 0(a1) (rv64i)
    0x00a5_b023, // sd a0, 0(a1) (rv64i)
    0x0015_851b, // addiw a0, a1, 1 (rv64i)
    0x0015_951b, // slliw a0, a1, 1 (rv64i)
    0x00c5_853b, // addw a0, a1, a2 (rv64i)
    0x40c5_853b, // subw a0, a1, a2 (rv64i)
    0x02c5_8533, // mul a0, a1, a2 (rv32im)
    0x02c5_b533, // mulhu a0, a1, a2 (rv32im)
    0x02c5_c533, // div a0, a1, a2 (rv32im)
    0x02c5_f533, // remu a0, a1, a2 (rv32im)
    0x1005_b52f, // lr.d a0, (a1) (rv64ia)
    0x18b6_352f, // sc.d a0, a1, (a2) (rv64ia)
    0x00b6_352f, // amoadd.d a0, a1, (a2) (rv64ia)
    0x0005_a507, // flw fa0, 0(a1) (rv32if)
    0x00a5_a027, // fsw fa0, 0(a1) (rv32if)
    0x00c5_f553, // fadd.s fa0, fa1, fa2 (rv32if)
    0x68c5_f543, // fmadd.s fa0, fa1, fa2, fa3 (rv32if)
    0x0005_b507, // fld fa0, 0(a1) (rv32ifd)
    0x02c5_f553, // fadd.d fa0, fa1, fa2 (rv32ifd)
    0x3005_9573, // csrrw a0, mstatus, a1 (rv32i_zicsr)
    0xc001_e573, // csrrsi a0, cycle, 3 (rv32i_zicsr)
    0xc000_2573, // rdcycle a0 (rv32i_zicsr)
    0x0000_100f, // fence.i (rv32i_zifencei)
    0x3020_0073, // mret (rv32i)
    0x1050_0073, // wfi (rv32i)
    0x1200_0073, // sfence.vma (rv32i)
    0x20c5_a533, // sh1add a0, a1, a2 (rv32i_zba)
    0x40c5_f533, // andn a0, a1, a2 (rv32i_zbb)
    0x6035_d513, // rori a0, a1, 3 (rv32i_zbb)
    0x6005_9513, // clz a0, a1 (rv32i_zbb)
    0x2855_9513, // bseti a0, a1, 5 (rv32i_zbs)
    0x0000_0001, // c.nop (rv32ic)
    0x0000_9002, // c.ebreak (rv32ic)
    0x0000_0000, // defined illegal
    0xffff_ffff, // defined illegal
    0x4205_5513, // srai a0, a0, 0 with bit 25 set
    0x4005_1513, // slli a0, a0, 0 with bit 30 set
    0x1014_a3af, // lr.w t2, (s1) with rs2 not 0
    0x0000_9067, // jalr with funct3 1
    0x0000_2063, // a branch with funct3 2
    0x0000_3003, // a load with funct3 3
    0x0000_3023, // a store with funct3 3
    0x4000_1033, // sll with bit 30 set
    0x0400_0033, // add with bit 26 set
    0x2864_a3af, // amocas.w t2, t1, (s1), of Zacas
    0x0864_c3af, // amoswap with funct3 4
    0x0864_a3ae, // amoswap with bit 0 clear
    0x0000_200f, // a fence with funct3 2
    0x0000_00f3, // ecall with rd not 0
    0x0020_0073, // uret
    0x0000_8073, // ecall with rs1 not 0
    0x0000_0012, // addi with bit 0 clear
    0x0000_001b, // the opcode of 64-bit operations with an immediate
    0x0000_007f, // the opcode of longer instructions
];

static VECTOR_TABLE: [Vector; 248] = VECTORS;

static UNASSIGNED_TABLE: [u32; 58] = UNASSIGNED;

/// `VECTORS`, without a copy.
pub fn vectors() -> &'static [Vector]
    ensures { result.now ≡ VECTORS }
{
    &VECTOR_TABLE
}

/// `UNASSIGNED`, without a copy.
pub fn unassigned() -> &'static [u32]
    ensures { result.now ≡ UNASSIGNED }
{
    &UNASSIGNED_TABLE
}
