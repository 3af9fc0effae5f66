//! The machine code of the objects: the words of each text, at 0x00010000.

/// Of Swap.
pub(crate) const SWAP: [u32; 15] = [
    0x0001_1437, // lui s0, 0x11
    0x0025_1293, // slli t0, a0, 2
    0x0082_82B3, // add t0, t0, s0
    0x00B2_A223, // sw a1, 4(t0)
    0x0010_0313, // addi t1, zero, 1
    0x0864_23AF, // amoswap.w t2, t1, (s0)
    0x0003_8A63, // beq t2, zero, win
    0x0015_4293, // xori t0, a0, 1
    0x0022_9293, // slli t0, t0, 2
    0x0082_82B3, // add t0, t0, s0
    0x0042_A583, // lw a1, 4(t0)
    0x0005_8513, // win: addi a0, a1, 0
    0x0010_0593, // addi a1, zero, 1
    0x05D0_0893, // addi a7, zero, 93
    0x0000_0073, // ecall
];

/// Of Add.
pub(crate) const ADD: [u32; 15] = [
    0x0001_1437, // lui s0, 0x11
    0x0025_1293, // slli t0, a0, 2
    0x0082_82B3, // add t0, t0, s0
    0x00B2_A223, // sw a1, 4(t0)
    0x0010_0313, // addi t1, zero, 1
    0x0064_23AF, // amoadd.w t2, t1, (s0)
    0x0003_8A63, // beq t2, zero, win
    0x0015_4293, // xori t0, a0, 1
    0x0022_9293, // slli t0, t0, 2
    0x0082_82B3, // add t0, t0, s0
    0x0042_A583, // lw a1, 4(t0)
    0x0005_8513, // win: addi a0, a1, 0
    0x0010_0593, // addi a1, zero, 1
    0x05D0_0893, // addi a7, zero, 93
    0x0000_0073, // ecall
];

/// Of LrSc.
pub(crate) const LRSC: [u32; 16] = [
    0x0001_1437, // lui s0, 0x11
    0x0025_1293, // slli t0, a0, 2
    0x0082_82B3, // add t0, t0, s0
    0x00B2_A223, // sw a1, 4(t0)
    0x0015_0313, // addi t1, a0, 1
    0x1004_23AF, // retry: lr.w t2, (s0)
    0x0003_9863, // bne t2, zero, done
    0x1864_2E2F, // sc.w t3, t1, (s0)
    0xFE0E_1AE3, // bne t3, zero, retry
    0x0003_0393, // addi t2, t1, 0
    0x0023_9393, // done: slli t2, t2, 2
    0x0083_83B3, // add t2, t2, s0
    0x0003_A503, // lw a0, 0(t2)
    0x0010_0593, // addi a1, zero, 1
    0x05D0_0893, // addi a7, zero, 93
    0x0000_0073, // ecall
];

/// Of AdoptCommit.
pub(crate) const ADOPT_COMMIT: [u32; 34] = [
    0x0001_1437, // lui s0, 0x11
    0x0045_1493, // slli s1, a0, 4
    0x0084_84B3, // add s1, s1, s0
    0x0046_1313, // slli t1, a2, 4
    0x0083_0333, // add t1, t1, s0 # the end of the records
    0x0020_0913, // addi s2, zero, 2
    0x00B4_A023, // sw a1, 0(s1) # its value
    0x0010_0393, // addi t2, zero, 1 # and then
    0x0074_A223, // sw t2, 4(s1) # that it is present
    0x0004_0293, // addi t0, s0, 0
    0x0042_A383, // look: lw t2, 4(t0)
    0x0003_8863, // beq t2, zero, next
    0x0002_AE03, // lw t3, 0(t0)
    0x00BE_0463, // beq t3, a1, next
    0x0010_0913, // addi s2, zero, 1
    0x0102_8293, // next: addi t0, t0, 16 # the next record
    0xFE62_94E3, // bne t0, t1, look
    0x0124_A423, // sw s2, 8(s1)
    0x0010_0993, // addi s3, zero, 1
    0x0005_8A13, // addi s4, a1, 0
    0x0004_0293, // addi t0, s0, 0
    0x0010_0E93, // addi t4, zero, 1
    0x0082_A383, // mark: lw t2, 8(t0)
    0x0003_8A63, // beq t2, zero, after
    0x01D3_9663, // bne t2, t4, commit
    0x0000_0993, // addi s3, zero, 0
    0x0080_006F, // jal zero, after
    0x0002_AA03, // commit: lw s4, 0(t0)
    0x0102_8293, // after: addi t0, t0, 16
    0xFE62_92E3, // bne t0, t1, mark
    0x000A_0513, // addi a0, s4, 0
    0x0009_8593, // addi a1, s3, 0
    0x05D0_0893, // addi a7, zero, 93
    0x0000_0073, // ecall
];

/// Of Rounds.
pub(crate) const ROUNDS: [u32; 40] = [
    0x0001_1437, // lui s0, 0x11
    0x0040_0A93, // addi s5, zero, 4
    0x0045_1493, // round: slli s1, a0, 4
    0x0084_84B3, // add s1, s1, s0
    0x0046_1313, // slli t1, a2, 4
    0x0083_0333, // add t1, t1, s0
    0x0020_0913, // addi s2, zero, 2
    0x00B4_A023, // sw a1, 0(s1)
    0x0010_0393, // addi t2, zero, 1
    0x0074_A223, // sw t2, 4(s1)
    0x0004_0293, // addi t0, s0, 0
    0x0042_A383, // look: lw t2, 4(t0)
    0x0003_8863, // beq t2, zero, next
    0x0002_AE03, // lw t3, 0(t0)
    0x00BE_0463, // beq t3, a1, next
    0x0010_0913, // addi s2, zero, 1
    0x0102_8293, // next: addi t0, t0, 16
    0xFE62_94E3, // bne t0, t1, look
    0x0124_A423, // sw s2, 8(s1)
    0x0010_0993, // addi s3, zero, 1
    0x0005_8A13, // addi s4, a1, 0
    0x0004_0293, // addi t0, s0, 0
    0x0010_0E93, // addi t4, zero, 1
    0x0082_A383, // mark: lw t2, 8(t0)
    0x0003_8A63, // beq t2, zero, after
    0x01D3_9663, // bne t2, t4, commit
    0x0000_0993, // addi s3, zero, 0
    0x0080_006F, // jal zero, after
    0x0002_AA03, // commit: lw s4, 0(t0)
    0x0102_8293, // after: addi t0, t0, 16
    0xFE62_92E3, // bne t0, t1, mark
    0x000A_0593, // addi a1, s4, 0
    0x0009_9863, // bne s3, zero, out
    0x2004_0413, // addi s0, s0, 512
    0xFFFA_8A93, // addi s5, s5, -1
    0xF60A_9EE3, // bne s5, zero, round
    0x0005_8513, // out: addi a0, a1, 0
    0x0009_8593, // addi a1, s3, 0
    0x05D0_0893, // addi a7, zero, 93
    0x0000_0073, // ecall
];
