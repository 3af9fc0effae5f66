//! The assembler sources of the objects.

/// Consensus of two harts by a swap.
pub const SWAP_SOURCE: &str = ".globl _start
_start:
lui s0, 0x11
slli t0, a0, 2
add t0, t0, s0
sw a1, 4(t0)
addi t1, zero, 1
amoswap.w t2, t1, (s0)
beq t2, zero, win
xori t0, a0, 1
slli t0, t0, 2
add t0, t0, s0
lw a1, 4(t0)
win:
addi a0, a1, 0
addi a1, zero, 1
addi a7, zero, 93
ecall
.bss
.zero 12
";

/// Consensus of two harts by an addition.
pub const ADD_SOURCE: &str = ".globl _start
_start:
lui s0, 0x11
slli t0, a0, 2
add t0, t0, s0
sw a1, 4(t0)
addi t1, zero, 1
amoadd.w t2, t1, (s0)
beq t2, zero, win
xori t0, a0, 1
slli t0, t0, 2
add t0, t0, s0
lw a1, 4(t0)
win:
addi a0, a1, 0
addi a1, zero, 1
addi a7, zero, 93
ecall
.bss
.zero 12
";

/// Consensus by load-reserved and store-conditional: the first word is 0, or 1 plus the number of
/// the winner.
pub const LRSC_SOURCE: &str = ".globl _start
_start:
lui s0, 0x11
slli t0, a0, 2
add t0, t0, s0
sw a1, 4(t0)
addi t1, a0, 1
retry:
lr.w t2, (s0)
bne t2, zero, done
sc.w t3, t1, (s0)
bne t3, zero, retry
addi t2, t1, 0
done:
slli t2, t2, 2
add t2, t2, s0
lw a0, 0(t2)
addi a1, zero, 1
addi a7, zero, 93
ecall
.bss
.zero 132
";

/// Adopt-commit by loads and stores. Each hart has a record of 16 bytes: its value, whether it is
/// present, its mark (1 adopt, 2 commit), and one unused word.
pub const ADOPT_COMMIT_SOURCE: &str = ".globl _start
_start:
lui s0, 0x11
slli s1, a0, 4
add s1, s1, s0
slli t1, a2, 4
add t1, t1, s0
addi s2, zero, 2
sw a1, 0(s1)
addi t2, zero, 1
sw t2, 4(s1)
addi t0, s0, 0
look:
lw t2, 4(t0)
beq t2, zero, next
lw t3, 0(t0)
beq t3, a1, next
addi s2, zero, 1
next:
addi t0, t0, 16
bne t0, t1, look
sw s2, 8(s1)
addi s3, zero, 1
addi s4, a1, 0
addi t0, s0, 0
addi t4, zero, 1
mark:
lw t2, 8(t0)
beq t2, zero, after
bne t2, t4, commit
addi s3, zero, 0
jal zero, after
commit:
lw s4, 0(t0)
after:
addi t0, t0, 16
bne t0, t1, mark
addi a0, s4, 0
addi a1, s3, 0
addi a7, zero, 93
ecall
.bss
.zero 512
";

/// Four adopt-commit objects in succession, with 512 bytes of records each. A hart that commits in
/// one is done; one that adopts goes on to the next with its value.
pub const ROUNDS_SOURCE: &str = ".globl _start
_start:
lui s0, 0x11
addi s5, zero, 4
round:
slli s1, a0, 4
add s1, s1, s0
slli t1, a2, 4
add t1, t1, s0
addi s2, zero, 2
sw a1, 0(s1)
addi t2, zero, 1
sw t2, 4(s1)
addi t0, s0, 0
look:
lw t2, 4(t0)
beq t2, zero, next
lw t3, 0(t0)
beq t3, a1, next
addi s2, zero, 1
next:
addi t0, t0, 16
bne t0, t1, look
sw s2, 8(s1)
addi s3, zero, 1
addi s4, a1, 0
addi t0, s0, 0
addi t4, zero, 1
mark:
lw t2, 8(t0)
beq t2, zero, after
bne t2, t4, commit
addi s3, zero, 0
jal zero, after
commit:
lw s4, 0(t0)
after:
addi t0, t0, 16
bne t0, t1, mark
addi a1, s4, 0
bne s3, zero, out
addi s0, s0, 512
addi s5, s5, -1
bne s5, zero, round
out:
addi a0, a1, 0
addi a1, s3, 0
addi a7, zero, 93
ecall
.bss
.zero 2048
";
