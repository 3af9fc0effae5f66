//! Law: the constants of the code equal those of the definitions, which have the manual's numerals.
ghost use Rattle.std.specs.Prelude.{◌≡◌};
ghost use Rattle.isa_table.specs.declared.codes.TheConstants.{OPCODE_LUI, OPCODE_AUIPC, OPCODE_JAL, OPCODE_JALR, OPCODE_BRANCH, OPCODE_LOAD, OPCODE_STORE, OPCODE_IMMEDIATE, OPCODE_REGISTER, OPCODE_FENCE, OPCODE_SYSTEM, OPCODE_ATOMIC};
ghost use Rattle.isa_table.specs.declared.codes.TheConstants.{FUNCT3_JALR, FUNCT3_BEQ, FUNCT3_BNE, FUNCT3_BLT, FUNCT3_BGE, FUNCT3_BLTU, FUNCT3_BGEU, FUNCT3_LB, FUNCT3_LH, FUNCT3_LW, FUNCT3_LBU, FUNCT3_LHU, FUNCT3_SB, FUNCT3_SH, FUNCT3_SW, FUNCT3_ADDI, FUNCT3_SLTI, FUNCT3_SLTIU, FUNCT3_XORI, FUNCT3_ORI, FUNCT3_ANDI, FUNCT3_SLLI, FUNCT3_SRLI, FUNCT3_ADD, FUNCT3_SLL, FUNCT3_SLT, FUNCT3_SLTU, FUNCT3_XOR, FUNCT3_SRL, FUNCT3_OR, FUNCT3_AND, FUNCT3_FENCE, FUNCT3_WORD};
ghost use Rattle.isa_table.specs.declared.codes.TheConstants.{FUNCT7_BASE, FUNCT7_ALTERNATE};
ghost use Rattle.isa_table.specs.declared.codes.TheConstants.{FUNCT5_LR, FUNCT5_SC, FUNCT5_AMOSWAP, FUNCT5_AMOADD, FUNCT5_AMOXOR, FUNCT5_AMOAND, FUNCT5_AMOOR, FUNCT5_AMOMIN, FUNCT5_AMOMAX, FUNCT5_AMOMINU, FUNCT5_AMOMAXU};
ghost use Rattle.isa_table.specs.declared.codes.TheConstants.{WORD_ECALL, WORD_EBREAK};

/// Each opcode, funct3, funct7, funct5 and whole word is the manual's. Unprivileged ISA, "RV32/64G
/// Instruction Set Listings".
pub fn codes_are_the_manuals()
    ensures opcodes { (OPCODE_LUI ≡ 0x37) × (OPCODE_AUIPC ≡ 0x17) × (OPCODE_JAL ≡ 0x6f) ×
        (OPCODE_JALR ≡ 0x67) × (OPCODE_BRANCH ≡ 0x63) × (OPCODE_LOAD ≡ 0x03) ×
        (OPCODE_STORE ≡ 0x23) × (OPCODE_IMMEDIATE ≡ 0x13) × (OPCODE_REGISTER ≡ 0x33) ×
        (OPCODE_FENCE ≡ 0x0f) × (OPCODE_SYSTEM ≡ 0x73) × (OPCODE_ATOMIC ≡ 0x2f) }
    ensures funct3 { (FUNCT3_JALR ≡ 0) × (FUNCT3_BEQ ≡ 0) × (FUNCT3_BNE ≡ 1) × (FUNCT3_BLT ≡ 4) ×
        (FUNCT3_BGE ≡ 5) × (FUNCT3_BLTU ≡ 6) × (FUNCT3_BGEU ≡ 7) × (FUNCT3_LB ≡ 0) ×
        (FUNCT3_LH ≡ 1) × (FUNCT3_LW ≡ 2) × (FUNCT3_LBU ≡ 4) × (FUNCT3_LHU ≡ 5) ×
        (FUNCT3_SB ≡ 0) × (FUNCT3_SH ≡ 1) × (FUNCT3_SW ≡ 2) × (FUNCT3_ADDI ≡ 0) ×
        (FUNCT3_SLTI ≡ 2) × (FUNCT3_SLTIU ≡ 3) × (FUNCT3_XORI ≡ 4) × (FUNCT3_ORI ≡ 6) ×
        (FUNCT3_ANDI ≡ 7) × (FUNCT3_SLLI ≡ 1) × (FUNCT3_SRLI ≡ 5) × (FUNCT3_ADD ≡ 0) ×
        (FUNCT3_SLL ≡ 1) × (FUNCT3_SLT ≡ 2) × (FUNCT3_SLTU ≡ 3) × (FUNCT3_XOR ≡ 4) ×
        (FUNCT3_SRL ≡ 5) × (FUNCT3_OR ≡ 6) × (FUNCT3_AND ≡ 7) × (FUNCT3_FENCE ≡ 0) ×
        (FUNCT3_WORD ≡ 2) }
    ensures funct7 { (FUNCT7_BASE ≡ 0x00) × (FUNCT7_ALTERNATE ≡ 0x20) }
    ensures funct5 { (FUNCT5_LR ≡ 0b00010) × (FUNCT5_SC ≡ 0b00011) × (FUNCT5_AMOSWAP ≡ 0b00001) ×
        (FUNCT5_AMOADD ≡ 0b00000) × (FUNCT5_AMOXOR ≡ 0b00100) × (FUNCT5_AMOAND ≡ 0b01100) ×
        (FUNCT5_AMOOR ≡ 0b01000) × (FUNCT5_AMOMIN ≡ 0b10000) × (FUNCT5_AMOMAX ≡ 0b10100) ×
        (FUNCT5_AMOMINU ≡ 0b11000) × (FUNCT5_AMOMAXU ≡ 0b11100) }
    ensures words { (WORD_ECALL ≡ 0x00000073) × (WORD_EBREAK ≡ 0x00100073) }
{}
