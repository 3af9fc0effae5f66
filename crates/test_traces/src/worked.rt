//! Programs whose choices were worked by hand.
use byte_io::MemorySource;
use cmd_asm::assembled_file;
use std::alloc::Allocator;

/// Each kind of access of a word at 0x00011000, whose first value is 5, and of the bytes behind it;
/// at last a load that is misaligned.
pub(crate) const EACH_ACCESS: &str = ".globl _start
_start:
    lui s0, 0x11
    lr.w t0, (s0)
    sc.w t1, a1, (s0)
    sc.w zero, a1, (s0)
    amoadd.w t2, a1, (s0)
    sb a1, 1(s0)
    lh t3, 0(s0)
    fence
    lw t4, 2(s0)

.data
cell: .word 5
other: .word 9
";

/// Words of a program that exits with its hart's number: addi a7, zero, 93, and ecall.
pub(crate) const EXITS: &str = "05d00893 00000073";

/// The ELF file of a source, or nothing for want of memory.
pub(crate) fn file_of<A: Allocator + Copy>(alloc: A, source: &str) -> Option<Vec<u8, A>> {
    let mut sources = [MemorySource::new(source.as_bytes())];
    assembled_file(alloc, &mut sources).ok()
}
