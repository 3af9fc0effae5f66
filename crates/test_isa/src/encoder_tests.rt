//! Properties without a clause: the built program encodes to the words of another assembler.
use isa_encode::encode;
use isa_table::vectors::{Vector, vectors};
use isa_table::{
    BranchOffset, FenceSet, Immediate12, Instr, JumpOffset, Mnemonic, Reg, ShiftAmount,
    UpperImmediate,
};

// The instruction with a vector's mnemonic and operands.
fn instr_of(vector: Vector) -> Option<Instr> {
    let (rd, rs1, rs2) = (reg(vector.rd)?, reg(vector.rs1)?, reg(vector.rs2)?);
    let imm = vector.imm;
    let (aq, rl) = (imm & 2 != 0, imm & 1 != 0);
    Some(match vector.mnemonic {
        Mnemonic::Lui => Instr::Lui {
            rd,
            imm: upper(imm)?,
        },
        Mnemonic::Auipc => Instr::Auipc {
            rd,
            imm: upper(imm)?,
        },
        Mnemonic::Jal => Instr::Jal {
            rd,
            offset: JumpOffset::of_word(imm)?,
        },
        Mnemonic::Jalr => Instr::Jalr {
            rd,
            rs1,
            imm: Immediate12::of_word(imm)?,
        },
        Mnemonic::Branch(op) => Instr::Branch {
            op,
            rs1,
            rs2,
            offset: BranchOffset::of_word(imm)?,
        },
        Mnemonic::Load(op) => Instr::Load {
            op,
            rd,
            rs1,
            imm: Immediate12::of_word(imm)?,
        },
        Mnemonic::Store(op) => Instr::Store {
            op,
            rs1,
            rs2,
            imm: Immediate12::of_word(imm)?,
        },
        Mnemonic::Immediate(op) => Instr::Immediate {
            op,
            rd,
            rs1,
            imm: Immediate12::of_word(imm)?,
        },
        Mnemonic::Shift(op) => Instr::Shift {
            op,
            rd,
            rs1,
            amount: ShiftAmount::new((imm & 31) as u8),
        },
        Mnemonic::Register(op) => Instr::Register { op, rd, rs1, rs2 },
        Mnemonic::Fence => {
            let (mode, pred, succ) = (set(imm >> 8), set(imm >> 4), set(imm));
            Instr::Fence {
                mode,
                pred,
                succ,
                rs1,
                rd,
            }
        }
        Mnemonic::Ecall => Instr::Ecall,
        Mnemonic::Ebreak => Instr::Ebreak,
        Mnemonic::LoadReserved => Instr::LoadReserved { aq, rl, rd, rs1 },
        Mnemonic::StoreConditional => Instr::StoreConditional {
            aq,
            rl,
            rd,
            rs1,
            rs2,
        },
        Mnemonic::Amo(op) => Instr::Amo {
            op,
            aq,
            rl,
            rd,
            rs1,
            rs2,
        },
    })
}

fn reg(number: u8) -> Option<Reg> {
    if number < 32 {
        Some(Reg::new(number))
    } else {
        None
    }
}

fn upper(high: u32) -> Option<UpperImmediate> {
    if high < 0x10_0000 {
        Some(UpperImmediate::new(high))
    } else {
        None
    }
}

fn set(bits: u32) -> FenceSet {
    FenceSet::new((bits & 15) as u8)
}

#[test]
fn words_of_another_assembler(rt: HostRuntime) {
    for vector in vectors() {
        let encoded = instr_of(*vector).map(|instr| encode(&instr));
        assert!(rt; encoded == Some(vector.word), "at {:#010x}", vector.word);
    }
}
