//! The codes of the instruction listings: opcodes, funct3, funct7 and funct5, each in the bits that
//! its heading names. Unprivileged ISA, "RV32/64G Instruction Set Listings".

// ---- opcodes, bits 6 to 0
/// Load upper immediate.
pub const OPCODE_LUI: u32 = 0x37;
/// Add upper immediate to pc.
pub const OPCODE_AUIPC: u32 = 0x17;
/// Jump and link.
pub const OPCODE_JAL: u32 = 0x6f;
/// Jump and link register.
pub const OPCODE_JALR: u32 = 0x67;
/// The conditional branches.
pub const OPCODE_BRANCH: u32 = 0x63;
/// The loads.
pub const OPCODE_LOAD: u32 = 0x03;
/// The stores.
pub const OPCODE_STORE: u32 = 0x23;
/// The operations on a register and an immediate, shifts among them.
pub const OPCODE_IMMEDIATE: u32 = 0x13;
/// The operations on two registers.
pub const OPCODE_REGISTER: u32 = 0x33;
/// Fence.
pub const OPCODE_FENCE: u32 = 0x0f;
/// ECALL and EBREAK.
pub const OPCODE_SYSTEM: u32 = 0x73;
/// The A extension.
pub const OPCODE_ATOMIC: u32 = 0x2f;

// ---- funct3, bits 14 to 12
/// Jump and link register.
pub const FUNCT3_JALR: u32 = 0;
/// Branch if equal.
pub const FUNCT3_BEQ: u32 = 0;
/// Branch if not equal.
pub const FUNCT3_BNE: u32 = 1;
/// Branch if less, signed.
pub const FUNCT3_BLT: u32 = 4;
/// Branch if greater or equal, signed.
pub const FUNCT3_BGE: u32 = 5;
/// Branch if less, unsigned.
pub const FUNCT3_BLTU: u32 = 6;
/// Branch if greater or equal, unsigned.
pub const FUNCT3_BGEU: u32 = 7;
/// Load byte.
pub const FUNCT3_LB: u32 = 0;
/// Load halfword.
pub const FUNCT3_LH: u32 = 1;
/// Load word.
pub const FUNCT3_LW: u32 = 2;
/// Load byte, unsigned.
pub const FUNCT3_LBU: u32 = 4;
/// Load halfword, unsigned.
pub const FUNCT3_LHU: u32 = 5;
/// Store byte.
pub const FUNCT3_SB: u32 = 0;
/// Store halfword.
pub const FUNCT3_SH: u32 = 1;
/// Store word.
pub const FUNCT3_SW: u32 = 2;
/// Add immediate.
pub const FUNCT3_ADDI: u32 = 0;
/// Set if less than immediate, signed.
pub const FUNCT3_SLTI: u32 = 2;
/// Set if less than immediate, unsigned.
pub const FUNCT3_SLTIU: u32 = 3;
/// Exclusive or with immediate.
pub const FUNCT3_XORI: u32 = 4;
/// Or with immediate.
pub const FUNCT3_ORI: u32 = 6;
/// And with immediate.
pub const FUNCT3_ANDI: u32 = 7;
/// Shift left logical by immediate.
pub const FUNCT3_SLLI: u32 = 1;
/// Shift right by immediate: SRLI, and SRAI by its funct7.
pub const FUNCT3_SRLI: u32 = 5;
/// ADD, and SUB by its funct7.
pub const FUNCT3_ADD: u32 = 0;
/// Shift left logical.
pub const FUNCT3_SLL: u32 = 1;
/// Set if less, signed.
pub const FUNCT3_SLT: u32 = 2;
/// Set if less, unsigned.
pub const FUNCT3_SLTU: u32 = 3;
/// Exclusive or.
pub const FUNCT3_XOR: u32 = 4;
/// Shift right: SRL, and SRA by its funct7.
pub const FUNCT3_SRL: u32 = 5;
/// Or.
pub const FUNCT3_OR: u32 = 6;
/// And.
pub const FUNCT3_AND: u32 = 7;
/// Fence.
pub const FUNCT3_FENCE: u32 = 0;
/// The A extension on words.
pub const FUNCT3_WORD: u32 = 2;

// ---- funct7, bits 31 to 25
/// Register operations and shifts, except those of `FUNCT7_ALTERNATE`.
pub const FUNCT7_BASE: u32 = 0x00;
/// SUB, SRA and SRAI.
pub const FUNCT7_ALTERNATE: u32 = 0x20;

// ---- funct5, bits 31 to 27
/// Load reserved.
pub const FUNCT5_LR: u32 = 0b00010;
/// Store conditional.
pub const FUNCT5_SC: u32 = 0b00011;
/// Atomic swap.
pub const FUNCT5_AMOSWAP: u32 = 0b00001;
/// Atomic add.
pub const FUNCT5_AMOADD: u32 = 0b00000;
/// Atomic exclusive or.
pub const FUNCT5_AMOXOR: u32 = 0b00100;
/// Atomic and.
pub const FUNCT5_AMOAND: u32 = 0b01100;
/// Atomic or.
pub const FUNCT5_AMOOR: u32 = 0b01000;
/// Atomic minimum, signed.
pub const FUNCT5_AMOMIN: u32 = 0b10000;
/// Atomic maximum, signed.
pub const FUNCT5_AMOMAX: u32 = 0b10100;
/// Atomic minimum, unsigned.
pub const FUNCT5_AMOMINU: u32 = 0b11000;
/// Atomic maximum, unsigned.
pub const FUNCT5_AMOMAXU: u32 = 0b11100;

// ---- whole words
/// Environment call.
pub const WORD_ECALL: u32 = 0x0000_0073;
/// Environment breakpoint.
pub const WORD_EBREAK: u32 = 0x0010_0073;
