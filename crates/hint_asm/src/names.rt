//! Names of registers, and names of other assemblers and of other extensions with what to write
//! here.

/// The names of registers.
pub(crate) const REGISTERS: [&str; 65] = [
    "x0", "x1", "x2", "x3", "x4", "x5", "x6", "x7", "x8", "x9", "x10", "x11", "x12", "x13", "x14",
    "x15", "x16", "x17", "x18", "x19", "x20", "x21", "x22", "x23", "x24", "x25", "x26", "x27",
    "x28", "x29", "x30", "x31", "zero", "ra", "sp", "gp", "tp", "t0", "t1", "t2", "t3", "t4", "t5",
    "t6", "fp", "s0", "s1", "s2", "s3", "s4", "s5", "s6", "s7", "s8", "s9", "s10", "s11", "a0",
    "a1", "a2", "a3", "a4", "a5", "a6", "a7",
];

/// Instructions outside RV32I and A, or with other names elsewhere, with what they are or what to
/// write.
pub(crate) const FOREIGN_INSTRUCTIONS: [(&[&str], &str); 9] = [
    (
        &[
            "mul", "mulh", "mulhu", "mulhsu", "div", "divu", "rem", "remu",
        ],
        "is of the extension M, and only RV32I and A are here: shift and add, or loop",
    ),
    (
        &[
            "ld",
            "sd",
            "lwu",
            "addiw",
            "addw",
            "subw",
            "sllw",
            "slliw",
            "srlw",
            "srliw",
            "sraw",
            "sraiw",
            "lr.d",
            "sc.d",
            "amoswap.d",
            "amoadd.d",
        ],
        "is for 64 bits, and registers have 32 here: write lw, sw, add, lr.w, sc.w and the like",
    ),
    (
        &[
            "csrr",
            "csrw",
            "csrrw",
            "csrrs",
            "csrrc",
            "csrrwi",
            "csrrsi",
            "csrrci",
            "rdcycle",
            "rdtime",
            "rdinstret",
        ],
        "reads or writes a CSR, and there are none here: a hart finds its number in a0 and its input in a1",
    ),
    (
        &[
            "flw", "fsw", "fld", "fsd", "fadd.s", "fsub.s", "fmul.s", "fdiv.s",
        ],
        "is of the extension F or D, and only RV32I and A are here",
    ),
    (
        &["wfi", "mret", "sret", "sfence.vma", "fence.i", "pause"],
        "is not of RV32I and A: leave it out; fence orders accesses",
    ),
    (
        &["amocas.w", "amoswap.b", "amoswap.h"],
        "is of the extension Zacas or Zabha, and only RV32I and A are here: write a loop of lr.w and sc.w",
    ),
    (
        &["mov", "move", "cpy"],
        "is no instruction here: write mv rd, rs",
    ),
    (
        &["b", "jmp", "br", "goto"],
        "is no instruction here: write j label",
    ),
    (
        &["lr", "sc", "amoswap", "amoadd", "amoor", "amoand", "amoxor"],
        "wants its size: write .w behind it",
    ),
];

/// Directives of others, with what to write.
pub(crate) const FOREIGN_DIRECTIVES: [(&[&str], &str); 9] = [
    (
        &[".balign"],
        "is not here: write .align n, which goes on at a multiple of 2^n, as .align 2 for 4 bytes",
    ),
    (
        &[".equ", ".set", ".eqv"],
        "is not here: names stand for addresses alone, so write the number where it is used",
    ),
    (&[".long", ".int", ".4byte"], "is not here: write .word"),
    (&[".short", ".2byte"], "is not here: write .half"),
    (
        &[".asciiz"],
        "is not here: write .asciz, a string with a zero behind it",
    ),
    (
        &[".dword", ".quad", ".8byte"],
        "is not here: write two values of .word, the low one first",
    ),
    (
        &[".rodata"],
        "is not here: write .section .rodata, or .data",
    ),
    (
        &[".comm", ".lcomm"],
        "is not here: write .bss, then the label and .zero n",
    ),
    (
        &[
            ".macro", ".endm", ".rept", ".endr", ".if", ".else", ".endif", ".include",
        ],
        "is not here: there are no macros, no conditions and no includes; asm takes several sources",
    ),
];
