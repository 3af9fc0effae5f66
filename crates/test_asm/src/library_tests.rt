//! Properties without a clause: the sources of the library assemble to the words of GNU as.
use crate::program_tests::are_words;
use asm_assemble::TEXT_BASE;
use asm_statement::AsmFault;
use cmd_asm::assemble;
use std::alloc::Global;

const SWAP: &str = ".globl _start
_start:
lui s0, 0x11
slli t0, a0, 2
add t0, t0, s0
sw a1, 4(t0)
addi t1, zero, 1
amoswap.w t2, t1, (s0)
beq t2, zero, win
xori t0, a0, 1
slli t0, t0, 2
add t0, t0, s0
lw a1, 4(t0)
win:
addi a0, a1, 0
addi a1, zero, 1
addi a7, zero, 93
ecall
.bss
.zero 12
";

const ADD: &str = ".globl _start
_start:
lui s0, 0x11
slli t0, a0, 2
add t0, t0, s0
sw a1, 4(t0)
addi t1, zero, 1
amoadd.w t2, t1, (s0)
beq t2, zero, win
xori t0, a0, 1
slli t0, t0, 2
add t0, t0, s0
lw a1, 4(t0)
win:
addi a0, a1, 0
addi a1, zero, 1
addi a7, zero, 93
ecall
.bss
.zero 12
";

// By GNU as.
const SWAP_WORDS: [u32; 15] = [
    0x0001_1437,
    0x0025_1293,
    0x0082_82b3,
    0x00b2_a223,
    0x0010_0313,
    0x0864_23af,
    0x0003_8a63,
    0x0015_4293,
    0x0022_9293,
    0x0082_82b3,
    0x0042_a583,
    0x0005_8513,
    0x0010_0593,
    0x05d0_0893,
    0x0000_0073,
];

// By GNU as.
const ADD_WORDS: [u32; 15] = [
    0x0001_1437,
    0x0025_1293,
    0x0082_82b3,
    0x00b2_a223,
    0x0010_0313,
    0x0064_23af,
    0x0003_8a63,
    0x0015_4293,
    0x0022_9293,
    0x0082_82b3,
    0x0042_a583,
    0x0005_8513,
    0x0010_0593,
    0x05d0_0893,
    0x0000_0073,
];

const LRSC: &str = ".globl _start
_start:
lui s0, 0x11
slli t0, a0, 2
add t0, t0, s0
sw a1, 4(t0)
addi t1, a0, 1
retry:
lr.w t2, (s0)
bne t2, zero, done
sc.w t3, t1, (s0)
bne t3, zero, retry
addi t2, t1, 0
done:
slli t2, t2, 2
add t2, t2, s0
lw a0, 0(t2)
addi a1, zero, 1
addi a7, zero, 93
ecall
.bss
.zero 132
";

const ADOPT: &str = ".globl _start
_start:
lui s0, 0x11
slli s1, a0, 4
add s1, s1, s0
slli t1, a2, 4
add t1, t1, s0
addi s2, zero, 2
sw a1, 0(s1)
addi t2, zero, 1
sw t2, 4(s1)
addi t0, s0, 0
look:
lw t2, 4(t0)
beq t2, zero, next
lw t3, 0(t0)
beq t3, a1, next
addi s2, zero, 1
next:
addi t0, t0, 16
bne t0, t1, look
sw s2, 8(s1)
addi s3, zero, 1
addi s4, a1, 0
addi t0, s0, 0
addi t4, zero, 1
mark:
lw t2, 8(t0)
beq t2, zero, after
bne t2, t4, commit
addi s3, zero, 0
jal zero, after
commit:
lw s4, 0(t0)
after:
addi t0, t0, 16
bne t0, t1, mark
addi a0, s4, 0
addi a1, s3, 0
addi a7, zero, 93
ecall
.bss
.zero 512
";

const ROUNDS: &str = ".globl _start
_start:
lui s0, 0x11
addi s5, zero, 4
round:
slli s1, a0, 4
add s1, s1, s0
slli t1, a2, 4
add t1, t1, s0
addi s2, zero, 2
sw a1, 0(s1)
addi t2, zero, 1
sw t2, 4(s1)
addi t0, s0, 0
look:
lw t2, 4(t0)
beq t2, zero, next
lw t3, 0(t0)
beq t3, a1, next
addi s2, zero, 1
next:
addi t0, t0, 16
bne t0, t1, look
sw s2, 8(s1)
addi s3, zero, 1
addi s4, a1, 0
addi t0, s0, 0
addi t4, zero, 1
mark:
lw t2, 8(t0)
beq t2, zero, after
bne t2, t4, commit
addi s3, zero, 0
jal zero, after
commit:
lw s4, 0(t0)
after:
addi t0, t0, 16
bne t0, t1, mark
addi a1, s4, 0
bne s3, zero, out
addi s0, s0, 512
addi s5, s5, -1
bne s5, zero, round
out:
addi a0, a1, 0
addi a1, s3, 0
addi a7, zero, 93
ecall
.bss
.zero 2048
";

// By GNU as.
const LRSC_WORDS: [u32; 16] = [
    0x0001_1437,
    0x0025_1293,
    0x0082_82b3,
    0x00b2_a223,
    0x0015_0313,
    0x1004_23af,
    0x0003_9863,
    0x1864_2e2f,
    0xfe0e_1ae3,
    0x0003_0393,
    0x0023_9393,
    0x0083_83b3,
    0x0003_a503,
    0x0010_0593,
    0x05d0_0893,
    0x0000_0073,
];

// By GNU as.
const ADOPT_WORDS: [u32; 34] = [
    0x0001_1437,
    0x0045_1493,
    0x0084_84b3,
    0x0046_1313,
    0x0083_0333,
    0x0020_0913,
    0x00b4_a023,
    0x0010_0393,
    0x0074_a223,
    0x0004_0293,
    0x0042_a383,
    0x0003_8863,
    0x0002_ae03,
    0x00be_0463,
    0x0010_0913,
    0x0102_8293,
    0xfe62_94e3,
    0x0124_a423,
    0x0010_0993,
    0x0005_8a13,
    0x0004_0293,
    0x0010_0e93,
    0x0082_a383,
    0x0003_8a63,
    0x01d3_9663,
    0x0000_0993,
    0x0080_006f,
    0x0002_aa03,
    0x0102_8293,
    0xfe62_92e3,
    0x000a_0513,
    0x0009_8593,
    0x05d0_0893,
    0x0000_0073,
];

// By GNU as.
const ROUNDS_WORDS: [u32; 40] = [
    0x0001_1437,
    0x0040_0a93,
    0x0045_1493,
    0x0084_84b3,
    0x0046_1313,
    0x0083_0333,
    0x0020_0913,
    0x00b4_a023,
    0x0010_0393,
    0x0074_a223,
    0x0004_0293,
    0x0042_a383,
    0x0003_8863,
    0x0002_ae03,
    0x00be_0463,
    0x0010_0913,
    0x0102_8293,
    0xfe62_94e3,
    0x0124_a423,
    0x0010_0993,
    0x0005_8a13,
    0x0004_0293,
    0x0010_0e93,
    0x0082_a383,
    0x0003_8a63,
    0x01d3_9663,
    0x0000_0993,
    0x0080_006f,
    0x0002_aa03,
    0x0102_8293,
    0xfe62_92e3,
    0x000a_0593,
    0x0009_9863,
    0x2004_0413,
    0xfffa_8a93,
    0xf60a_9ee3,
    0x0005_8513,
    0x0009_8593,
    0x05d0_0893,
    0x0000_0073,
];

// A source of the library: its words, and the number of zeros after them. It has no data, and its
// entry is the text's base.
struct Library {
    name: &'static str,
    source: &'static str,
    words: &'static [u32],
    zeros: u32,
}

const LIBRARY: [Library; 5] = [
    Library {
        name: "Swap",
        source: SWAP,
        words: &SWAP_WORDS,
        zeros: 12,
    },
    Library {
        name: "Add",
        source: ADD,
        words: &ADD_WORDS,
        zeros: 12,
    },
    Library {
        name: "LrSc",
        source: LRSC,
        words: &LRSC_WORDS,
        zeros: 132,
    },
    Library {
        name: "AdoptCommit",
        source: ADOPT,
        words: &ADOPT_WORDS,
        zeros: 512,
    },
    Library {
        name: "Rounds",
        source: ROUNDS,
        words: &ROUNDS_WORDS,
        zeros: 2048,
    },
];

// Whether a source of the library has its words and zeros.
fn is_library(alloc: Global, row: &Library) -> Result<bool, AsmFault> {
    let program = assemble(alloc, [row.source].as_slice())?;
    let is_plain = program.bytes().is_empty() && program.entry() == TEXT_BASE;
    Ok(is_plain && are_words(program.text(), row.words) && program.zeros() == row.zeros)
}

#[test]
fn sources_of_the_library_have_their_words(rt: HostRuntime) {
    for row in &LIBRARY {
        let name = row.name;
        assert!(rt; is_library(rt.alloc(), row) == Ok(true), "{name}");
    }
}
