//! The sentences: what a fault of an instruction means, and what to do.

use hint_text::Form;
use hint_text::Part::{First, Words};

/// The instruction before was the segment's last.
pub(crate) const PAST_LAST: Form = &[Words(
    "the program runs on past its last instruction: is an ecall with 93 in a7 missing, or a jump?",
)];

/// The address 0, which is in no segment.
pub(crate) const AT_ZERO: Form = &[Words(
    "a jump went to 0: a register that was jumped to, as ra, had never got an address, or was lost",
)];

/// An address in no segment.
pub(crate) const NOWHERE_TO_FETCH: Form = &[Words(
    "no segment is there: a register that was jumped to held no address of code",
)];

/// An address in a segment that isn't executable.
pub(crate) const NOT_EXECUTABLE: Form = &[Words(
    "this segment may not be executed: data was jumped to",
)];

/// The word 0.
pub(crate) const ZEROS: Form = &[Words(
    "the word is 0, as in data or in what was never written: is an ecall with 93 in a7, or a jump, missing before it?",
)];

/// A word of 16 bits.
pub(crate) const COMPRESSED: Form = &[Words(
    "the word is a compressed instruction: compile with -march=rv32ia",
)];

/// Another word that is no instruction.
pub(crate) const NO_INSTRUCTION: Form = &[Words(
    "the word is no instruction of RV32I or A: it is data, or of another extension",
)];

/// An address that is no multiple of the access's size in bytes.
pub(crate) const MISALIGNED: Form = &[
    Words("the address is no multiple of "),
    First,
    Words(": write .align 2 before the data, and look at how the address is made"),
];

/// An address relative to sp, where sp is 0 or small.
pub(crate) const NO_STACK: Form = &[Words(
    "sp is 0 or just below it: no stack was set. Write la sp, and the end of a .zero of .bss, before the first use",
)];

/// An address in no segment.
pub(crate) const UNMAPPED: Form = &[Words(
    "no segment is there: the address was made wrong, or an index is too large",
)];

/// An address in a segment that isn't writable.
pub(crate) const NOT_WRITABLE: Form = &[Words(
    "this segment may not be written: put the data into .data or .bss",
)];

/// An address in a segment that isn't readable.
pub(crate) const NOT_READABLE: Form = &[Words("this segment may not be read")];

/// The access passes its segment's end.
pub(crate) const ACROSS: Form = &[Words(
    "the last of the bytes is in no segment, or in one without the right",
)];

/// A jump to no multiple of 4.
pub(crate) const ODD_JUMP: Form = &[Words(
    "it jumps to an address that is no multiple of 4, and instructions stand at such ones alone",
)];

/// An ECALL with this number in a7.
pub(crate) const CALL: Form = &[
    Words("a7 is "),
    First,
    Words(", and the one call is 93, which ends the hart: write li a7, 93"),
];

/// A hart that runs after the last choice.
pub(crate) const STILL_RUNS: Form = &[Words(
    "it still runs after the last choice: more steps may end it, and shrink --must-exit decides whether it hangs",
)];

/// A hart that runs after the last step of its budget.
pub(crate) const USED_UP: Form = &[Words(
    "its budget is used up, and it still runs: a larger --budget may end it",
)];

/// A hart that runs after the last step of its budget or of the total of all harts.
pub(crate) const ALL_USED_UP: Form = &[Words(
    "its budget or the total is used up, and it still runs: a larger --budget or --total may end it",
)];

/// An EBREAK.
pub(crate) const BREAK: Form = &[Words("the program's own check just before this failed")];
