//! Programs for tests.
use test_images::Program;

/// Each hart does nothing, twice.
pub const ADDITIONS: Program = Program::Fixed(&[
    0x0000_0013, // addi zero, zero, 0
    0x0000_0013, // addi zero, zero, 0
]);

/// Each hart stores its input at 0, twice.
pub const STORES: Program = Program::Fixed(&[
    0x00b0_2023, // sw a1, 0(zero)
    0x00b0_2023, // sw a1, 0(zero)
]);

/// Each hart reserves the word at 0, and then stores there.
pub const RESERVE_AND_STORE: Program = Program::Fixed(&[
    0x1000_22af, // lr.w t0, (zero)
    0x00b0_2023, // sw a1, 0(zero)
]);
