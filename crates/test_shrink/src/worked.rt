//! Programs that fail under some schedules.
use byte_io::MemorySource;
use cmd_asm::assembled_file;
use std::alloc::Allocator;

// Stores 1 into a word where another hart may store too, and stops at an EBREAK where the update of
// one was lost.
pub(crate) const LOST: &str = ".globl _start
_start:
    la s0, counter
    lw t0, 0(s0)
    addi t0, t0, 1
    sw t0, 0(s0)
    la s1, done
    li t1, 1
    amoadd.w zero, t1, (s1)
wait:
    lw t1, 0(s1)
    bne t1, a2, wait
    lw a0, 0(s0)
    beq a0, a1, end
    ebreak
end:
    li a7, 93
    ecall

.data
counter: .word 0
done: .word 0
";

// Hart 1 stores into a word; hart 0 stops at an EBREAK where it finds none there, and else at an
// ECALL that is none.
pub(crate) const TWO_FAULTS: &str = ".globl _start
_start:
    la s0, flag
    bnez a0, store
    lw t0, 0(s0)
    bnez t0, other
    ebreak
other:
    ecall
store:
    sw a0, 0(s0)
    li a7, 93
    ecall

.data
flag: .word 0
";

// Stops at an EBREAK where its store-conditional is refused.
pub(crate) const NEEDS_SC: &str = ".globl _start
_start:
    la s0, cell
    lr.w t0, (s0)
    sc.w t1, a1, (s0)
    beqz t1, end
    ebreak
end:
    li a7, 93
    ecall

.data
cell: .word 0
";

// Each hart decides on its own input.
pub(crate) const OWN_INPUT: &str = ".globl _start
_start:
    mv a0, a1
    li a1, 1
    li a7, 93
    ecall
";

// Takes two locks, hart 1 in the other order.
pub(crate) const CROSSED: &str = ".globl _start
_start:
    la s0, locks
    slli t0, a0, 2
    add s1, s0, t0
    xori t0, t0, 4
    add s2, s0, t0
    li t1, 1
first:
    amoswap.w t0, t1, (s1)
    bnez t0, first
second:
    amoswap.w t0, t1, (s2)
    bnez t0, second
    sw zero, 0(s2)
    sw zero, 0(s1)
    li a7, 93
    ecall

.data
locks: .word 0, 0
";

// The ELF file of a source, or nothing for want of memory.
pub(crate) fn file_of<A: Allocator + Copy>(alloc: A, source: &str) -> Option<Vec<u8, A>> {
    let mut sources = [MemorySource::new(source.as_bytes())];
    assembled_file(alloc, &mut sources).ok()
}
