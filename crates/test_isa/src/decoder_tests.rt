//! Properties without a clause: the names of the mnemonics, and that the built program decodes the
//! words of another assembler.
use isa_decode::decode;
use isa_table::vectors::{Vector, unassigned, vectors};
use isa_table::{Instr, Mnemonic};

// Each mnemonic as GNU as reads it, and a word assembled by GNU as.
#[rattlefmt::skip]
static NAMES: [(&str, u32); 51] = [
    ("addi", 0x0000_0013), ("beq", 0x0003_8a63), ("amoswap.w", 0x0864_a3af), ("lr.w", 0x1004_a3af),
    ("sc.w", 0x1864_ae2f), ("amoadd.w", 0x0664_a3af), ("lui", 0x0000_03b7), ("auipc", 0x0000_0897),
    ("jal", 0x0020_0def), ("jalr", 0x000b_0d67), ("bne", 0xfe4d_1fe3), ("blt", 0x0058_c163),
    ("bge", 0xfe64_5fe3), ("bltu", 0x007f_e163), ("bgeu", 0xfe8b_7fe3), ("lb", 0x0006_8583),
    ("lh", 0x0012_1703), ("lw", 0xfffd_a883), ("lbu", 0x7ff9_4a03), ("lhu", 0x8004_db83),
    ("sb", 0x0090_0023), ("sh", 0x7f71_1fa3), ("sw", 0x0252_2023), ("slti", 0xfffe_ae93),
    ("sltiu", 0x800a_3013), ("xori", 0xaaa5_c193), ("ori", 0x0011_6313), ("andi", 0x7ffc_f493),
    ("slli", 0x0008_1613), ("srli", 0x000e_5413), ("srai", 0x4004_5213), ("add", 0x013a_0033),
    ("sub", 0x4070_0e33), ("sll", 0x01b6_1c33), ("slt", 0x00fc_2a33), ("sltu", 0x0032_3833),
    ("xor", 0x0178_4633), ("srl", 0x00be_5433), ("sra", 0x41f4_5233), ("or", 0x013a_6033),
    ("and", 0x0070_7e33), ("fence", 0x0ff0_000f), ("ecall", 0x0000_0073), ("ebreak", 0x0010_0073),
    ("amoxor.w", 0x217e_242f), ("amoand.w", 0x60b4_222f), ("amoor.w", 0x41fa_202f),
    ("amomin.w", 0x8130_2e2f), ("amomax.w", 0xa076_2c2f), ("amominu.w", 0xc1bc_2a2f),
    ("amomaxu.w", 0xe0f2_282f),
];

// rd, rs1, rs2 and the rest of the operands, as in a vector.
fn operands(instr: Instr) -> (u8, u8, u8, u32) {
    match instr {
        Instr::Lui { rd, imm } | Instr::Auipc { rd, imm } => (rd.number(), 0, 0, imm.high()),
        Instr::Jal { rd, offset } => (rd.number(), 0, 0, offset.word()),
        Instr::Jalr { rd, rs1, imm }
        | Instr::Load { rd, rs1, imm, .. }
        | Instr::Immediate { rd, rs1, imm, .. } => (rd.number(), rs1.number(), 0, imm.word()),
        Instr::Branch {
            rs1,
            rs2,
            offset,
            ..
        } => (0, rs1.number(), rs2.number(), offset.word()),
        Instr::Store { rs1, rs2, imm, .. } => (0, rs1.number(), rs2.number(), imm.word()),
        Instr::Shift {
            rd,
            rs1,
            amount,
            ..
        } => { (rd.number(), rs1.number(), 0, u32::from(amount.count())) }
        Instr::Register { rd, rs1, rs2, .. } => (rd.number(), rs1.number(), rs2.number(), 0),
        Instr::Fence {
            mode,
            pred,
            succ,
            rs1,
            rd,
        } => {
            let sets = u32::from(mode.bits()) << 8
                | u32::from(pred.bits()) << 4
                | u32::from(succ.bits());
            (rd.number(), rs1.number(), 0, sets)
        }
        Instr::Ecall | Instr::Ebreak => (0, 0, 0, 0),
        Instr::LoadReserved { aq, rl, rd, rs1 } => (rd.number(), rs1.number(), 0, order(aq, rl)),
        Instr::StoreConditional {
            aq,
            rl,
            rd,
            rs1,
            rs2,
        }
        | Instr::Amo {
            aq,
            rl,
            rd,
            rs1,
            rs2,
            ..
        } => { (rd.number(), rs1.number(), rs2.number(), order(aq, rl)) }
    }
}

fn order(aq: bool, rl: bool) -> u32 {
    u32::from(aq) << 1 | u32::from(rl)
}

// Whether a vector's word is decoded to its mnemonic and operands.
fn is_decoded(vector: &Vector) -> bool {
    let wanted = (vector.rd, vector.rs1, vector.rs2, vector.imm);
    match decode(vector.word) {
        Some(instr) => instr.mnemonic() == vector.mnemonic && operands(instr) == wanted,
        None => false,
    }
}

#[test]
fn words_of_another_assembler(rt: HostRuntime) {
    for vector in vectors() {
        assert!(rt; is_decoded(vector), "at {:#010x}", vector.word);
    }
}

#[test]
fn words_that_are_no_instruction(rt: HostRuntime) {
    for word in unassigned() {
        assert!(rt; decode(*word).is_none(), "at {word:#010x}");
    }
}

// Whether a word's mnemonic has this name, and the name is the mnemonic's own.
fn is_named(name: &str, word: u32) -> bool {
    match decode(word) {
        Some(instr) => {
            let mnemonic = instr.mnemonic();
            mnemonic.name() == name && Mnemonic::of_name(name) == Some(mnemonic)
        }
        None => false,
    }
}

#[test]
fn names_of_another_assembler(rt: HostRuntime) {
    for (name, word) in &NAMES {
        assert!(rt; is_named(name, *word), "{name}");
    }
}
