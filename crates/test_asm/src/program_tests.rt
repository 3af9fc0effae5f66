//! Properties without a clause: words from the manual's tables and from GNU as, each fault at its
//! limit.
use asm_assemble::{Program, Symbol, TEXT_BASE};
use asm_statement::{AsmFault, Section};
use cmd_asm::assemble;
use std::alloc::Global;

// A source, and the words of its text.
type Words = (&'static str, &'static [u32]);

/// Whether bytes are those of these words, little-endian.
pub(crate) fn are_words(bytes: &[u8], words: &[u32]) -> bool {
    let mut rest = bytes;
    for word in words {
        let Some(left) = rest.strip_prefix(word.to_le_bytes().as_slice()) else {
            return false;
        };
        rest = left;
    }
    rest.is_empty()
}

// Whether a source has a text of these words.
fn has_words(alloc: Global, source: &str, words: &[u32]) -> bool {
    match assemble(alloc, [source].as_slice()) {
        Ok(program) => are_words(program.text(), words),
        Err(_) => false,
    }
}

// Whether each source has its words; else the first one that has not.
fn each_has_words(alloc: Global, rows: &[Words]) -> Result<(), &'static str> {
    for (source, words) in rows {
        if !has_words(alloc, source, words) {
            return Err(source);
        }
    }
    Ok(())
}

// The words of GNU as 2.40 and its linker, without relaxation, with text at 0x10000.
const PSEUDO_INSTRUCTIONS: [Words; 33] = [
    ("nop", &[0x0000_0013]),
    ("mv a0, a1", &[0x0005_8513]),
    ("not a0, a1", &[0xfff5_c513]),
    ("neg a0, a1", &[0x40b0_0533]),
    ("seqz a0, a1", &[0x0015_b513]),
    ("snez a0, a1", &[0x00b0_3533]),
    ("sltz a0, a1", &[0x0005_a533]),
    ("sgtz a0, a1", &[0x00b0_2533]),
    ("x: beqz a0, x", &[0x0005_0063]),
    ("x: bnez a0, x", &[0x0005_1063]),
    ("x: bgez a0, x", &[0x0005_5063]),
    ("x: bltz a0, x", &[0x0005_4063]),
    ("x: blez a0, x", &[0x00a0_5063]),
    ("x: bgtz a0, x", &[0x00a0_4063]),
    ("x: bgt a0, a1, x", &[0x00a5_c063]),
    ("x: ble a0, a1, x", &[0x00a5_d063]),
    ("x: bgtu a0, a1, x", &[0x00a5_e063]),
    ("x: bleu a0, a1, x", &[0x00a5_f063]),
    ("x: nop\nj x", &[0x0000_0013, 0xffdf_f06f]),
    ("x: nop\njal x", &[0x0000_0013, 0xffdf_f0ef]),
    ("jr a0", &[0x0005_0067]),
    ("jalr a0", &[0x0005_00e7]),
    ("ret", &[0x0000_8067]),
    ("li a0, 2047", &[0x7ff0_0513]),
    ("li a0, 2048", &[0x0000_1537, 0x8005_0513]),
    ("li a0, -2048", &[0x8000_0513]),
    ("li a0, -2049", &[0xffff_f537, 0x7ff5_0513]),
    ("li a0, 0x12345000", &[0x1234_5537]),
    ("li a0, 0x12345fff", &[0x1234_6537, 0xfff5_0513]),
    ("li a0, 4294967295", &[0xfff0_0513]),
    (
        "la a0, x - 4\nx: nop",
        &[0x0000_0517, 0x0045_0513, 0x0000_0013],
    ),
    ("x: nop\ncall x", &[0x0000_0013, 0x0000_0097, 0xffc0_80e7]),
    ("tail x\nx: nop", &[0x0000_0317, 0x0083_0067, 0x0000_0013]),
];

#[test]
fn each_pseudo_instruction_has_its_words(rt: HostRuntime) -> Result<(), &'static str> {
    each_has_words(rt.alloc(), &PSEUDO_INSTRUCTIONS)
}

// `la` and `call` of the rows in the scope, the carry of `%hi` and `%lo`, and local labels, by GNU
// as.
const REFERENCES: [Words; 6] = [
    ("la a0, x\n.data\nx: .word 1", &[0x0000_1517, 0x0005_0513]),
    ("call f\nf:", &[0x0000_0097, 0x0080_80e7]),
    (
        "lui a0, %hi(0x12345800)\naddi a0, a0, %lo(0x12345800)",
        &[0x1234_6537, 0x8005_0513],
    ),
    (
        "lui a0, %hi(x)\naddi a0, a0, %lo(x)\nx: nop",
        &[0x0001_0537, 0x0085_0513, 0x0000_0013],
    ),
    (
        "1: nop\nbeq a0, a1, 1b\nbne a0, a1, 1f\n1: jal ra, 1b\n1: nop",
        &[
            0x0000_0013,
            0xfeb5_0ee3,
            0x00b5_1263,
            0x0000_00ef,
            0x0000_0013,
        ],
    ),
    ("1: j 1f\n1: beqz a0, 1b", &[0x0040_006f, 0x0005_0063]),
];

#[test]
fn references_have_their_words(rt: HostRuntime) -> Result<(), &'static str> {
    each_has_words(rt.alloc(), &REFERENCES)
}

// Sources, and the bytes of their data.
const DATA: [(&str, &[u8]); 16] = [
    (
        "x: .data\n.word 1, -1, x + 4",
        &[1, 0, 0, 0, 255, 255, 255, 255, 4, 0, 1, 0],
    ),
    (
        ".section .rodata\n.half 0x1234, -2",
        &[0x34, 0x12, 0xfe, 0xff],
    ),
    (".section .data.x\n.byte 255, -128", &[255, 128]),
    (".data\n.ascii \"a\\n\", \"b\"", &[97, 10, 98]),
    (".data\n.asciz \"a\", \"b\"", &[97, 0, 98, 0]),
    (".data\n.string \"\\101\"", &[65, 0]),
    (".data\n.zero 2", &[0, 0]),
    (".data\n.space 1", &[0]),
    (".data\n.skip 3", &[0, 0, 0]),
    (".data\n.byte 1\n.align 2", &[1, 0, 0, 0]),
    (".data\n.byte 1\n.p2align 1\n.byte 2", &[1, 0, 2]),
    (
        ".data\n.byte 1\n.globl x, y\n.global z\n.file \"f\"\n.size x, 4",
        &[1],
    ),
    (
        ".option norvc\n.attribute 5\n.type x, @function\n.ident \"i\"\n.data\n.byte 1",
        &[1],
    ),
    (
        ".data\n.ascii \"\\t\\r\\\\\\\"\\0\\377\"",
        &[9, 13, 92, 34, 0, 255],
    ),
    (
        ".text\nnop\n.section .data\n.byte 1\n.section .text.x, \"ax\"\nnop\n.data\n.byte 2",
        &[1, 2],
    ),
    (
        ".section .bss\n.zero 4\n.section .rodata.y\n.byte 1\n.bss\n.align 3\n.section .bss.z",
        &[1],
    ),
];

// Whether a source has data of these bytes.
fn has_bytes(alloc: Global, source: &str, bytes: &[u8]) -> bool {
    match assemble(alloc, [source].as_slice()) {
        Ok(program) => program.bytes() == bytes,
        Err(_) => false,
    }
}

#[test]
fn each_directive_has_its_bytes(rt: HostRuntime) {
    for (source, bytes) in &DATA {
        assert!(rt; has_bytes(rt.alloc(), source, bytes), "{source}");
    }
}

// A byte, three zeros up to the next word, `nop`, and `ret`.
const FILLED: [u32; 3] = [0x0000_0005, 0x0000_0013, 0x0000_8067];

#[test]
fn text_is_filled_with_nops(rt: HostRuntime) {
    assert!(rt; has_words(rt.alloc(), ".byte 5\n.align 3\nret", &FILLED));
}

// The number, source and line of the fault of sources; zeros if there is none.
fn fault_of(alloc: Global, sources: &[&str]) -> (u8, usize, usize) {
    match assemble(alloc, sources) {
        Ok(_program) => (0, 0, 0),
        Err(AsmFault::At(fault)) => (fault.kind.number(), fault.source, fault.line),
        Err(AsmFault::Memory) => (99, 0, 0),
    }
}

// A source, and the number of its fault (0 for none) and its line, from 1.
type Faulty = (&'static str, u8, usize);

// Whether each source has its fault; else the first one that has not.
fn each_has_fault(alloc: Global, rows: &[Faulty]) -> Result<(), &'static str> {
    for (source, number, line) in rows {
        if fault_of(alloc, [*source].as_slice()) != (*number, 0, *line) {
            return Err(source);
        }
    }
    Ok(())
}

// Texts and heads.
const TEXTS: [Faulty; 12] = [
    (".data\n.byte 07", 0, 0),
    (".data\n.byte 08", 1, 2),
    (".ascii \"a", 1, 1),
    (".ascii \"a\"", 0, 0),
    ("nop @\u{7f}", 1, 1),
    ("addi a0, a0, 4096\nfoo", 2, 2),
    ("addi a0, a0", 3, 1),
    (".data\n.ascii \"\\377\"", 0, 0),
    (".data\n.ascii \"\\400\"", 3, 2),
    ("addi a0, q9, 1", 4, 1),
    ("addi a0, x31, 1", 0, 0),
    ("addi a0, x32, 1", 4, 1),
];

#[test]
fn texts_and_heads_have_their_faults(rt: HostRuntime) -> Result<(), &'static str> {
    each_has_fault(rt.alloc(), &TEXTS)
}

// Immediates at the limits of their ranges.
const IMMEDIATES: [Faulty; 30] = [
    ("addi a0, a0, -2049", 5, 1),
    ("addi a0, a0, -2048", 0, 0),
    ("addi a0, a0, 2047", 0, 0),
    ("addi a0, a0, 2048", 5, 1),
    ("lw a0, -2049(a1)", 5, 1),
    ("lw a0, -2048(a1)", 0, 0),
    ("lw a0, 2047(a1)", 0, 0),
    ("lw a0, 2048(a1)", 5, 1),
    ("sw a0, -2049(a1)", 5, 1),
    ("sw a0, -2048(a1)", 0, 0),
    ("sw a0, 2047(a1)", 0, 0),
    ("sw a0, 2048(a1)", 5, 1),
    ("jalr a0, -2049(a1)", 5, 1),
    ("jalr a0, -2048(a1)", 0, 0),
    ("jalr a0, a1, 2047", 0, 0),
    ("jalr a0, a1, 2048", 5, 1),
    ("lui a0, 0", 0, 0),
    ("auipc a0, -1", 5, 1),
    ("auipc a0, 0", 0, 0),
    ("auipc a0, 1048575", 0, 0),
    ("auipc a0, 1048576", 5, 1),
    ("srai a0, a0, -1", 5, 1),
    ("srai a0, a0, 0", 0, 0),
    ("srai a0, a0, 31", 0, 0),
    ("srai a0, a0, 32", 5, 1),
    ("lui a0, 1048575", 0, 0),
    ("lui a0, 1048576", 5, 1),
    ("lui a0, -1", 5, 1),
    ("slli a0, a0, 31", 0, 0),
    ("slli a0, a0, 32", 5, 1),
];

#[test]
fn immediates_have_their_range(rt: HostRuntime) -> Result<(), &'static str> {
    each_has_fault(rt.alloc(), &IMMEDIATES)
}

// Numbers at the limits of their ranges.
const NUMBERS: [Faulty; 14] = [
    ("li a0, -2147483648", 0, 0),
    ("li a0, -2147483649", 5, 1),
    ("li a0, 4294967295", 0, 0),
    ("li a0, 4294967296", 1, 1),
    (".word -2147483648", 0, 0),
    (".word -2147483649", 5, 1),
    (".word 4294967295", 0, 0),
    (".word 4294967296", 1, 1),
    (".half 65535, -32768", 0, 0),
    (".half 65536", 5, 1),
    (".half -32769", 5, 1),
    (".byte 255, -128", 0, 0),
    (".byte 256", 5, 1),
    (".byte -129", 5, 1),
];

#[test]
fn numbers_of_data_have_their_range(rt: HostRuntime) -> Result<(), &'static str> {
    each_has_fault(rt.alloc(), &NUMBERS)
}

// Names and labels.
const NAMES: [Faulty; 8] = [
    ("nowhere: j nowhere", 0, 0),
    ("j nowhere", 6, 1),
    ("j 1f", 6, 1),
    ("1: nop\nj 1f", 6, 2),
    ("j 1b\n1: nop", 6, 1),
    (".globl nowhere\nla a0, nowhere", 6, 2),
    ("a:\na:", 7, 2),
    ("1:\n1:", 0, 0),
];

#[test]
fn names_are_defined_once(rt: HostRuntime) -> Result<(), &'static str> {
    each_has_fault(rt.alloc(), &NAMES)
}

// Targets at the limits of their ranges.
const REACHES: [Faulty; 12] = [
    ("beq a0, a1, x\n.zero 4096\nx:", 8, 1),
    ("beq a0, a1, x\n.zero 4088\nx:", 0, 0),
    ("beq a0, a1, 0xf000", 0, 0),
    ("beq a0, a1, 0xeffe", 8, 1),
    ("beq a0, a1, 0x10ffe", 0, 0),
    ("beq a0, a1, 0x11000", 8, 1),
    ("beq a0, a1, 0x10001", 8, 1),
    ("j 0x10fffe", 0, 0),
    ("j 0x110000", 8, 1),
    ("j 0xfff10000", 0, 0),
    ("j 0xfff0fffe", 8, 1),
    ("j 0x10003", 8, 1),
];

#[test]
fn branches_and_jumps_have_their_reach(rt: HostRuntime) -> Result<(), &'static str> {
    each_has_fault(rt.alloc(), &REACHES)
}

// The statements that sections accept.
const SECTIONS: [Faulty; 6] = [
    (".bss\n.word 1", 9, 2),
    (".bss\n.zero 1", 0, 0),
    (".bss\nx: .align 2\n.space 1\n.skip 1", 0, 0),
    (".bss\nnop", 9, 2),
    (".bss\n.ascii \"\"", 9, 2),
    (".equ a, 1", 9, 1),
];

#[test]
fn sections_take_what_fits_them(rt: HostRuntime) -> Result<(), &'static str> {
    each_has_fault(rt.alloc(), &SECTIONS)
}

// Addresses and sizes at their limits.
const LIMITS: [Faulty; 17] = [
    (".byte 1\nnop", 10, 2),
    (".half 1\nli a0, 1", 10, 2),
    (".byte 1, 2, 3\nnop", 10, 2),
    (".byte 1, 2, 3, 4\nnop", 0, 0),
    (".byte 1\n.align 2\nnop", 0, 0),
    (".data\n.align 12", 0, 0),
    (".data\n.align 13", 10, 2),
    (".bss\n.p2align 12", 0, 0),
    (".bss\n.p2align 13", 10, 2),
    (".bss\n.zero 16777216\nx:", 0, 0),
    (".bss\n.zero 16777217\nx:\n.zero 0", 11, 2),
    (".zero 16777217", 11, 1),
    ("nop\n.bss\n.zero 16777212", 0, 0),
    ("nop\n.bss\n.zero 16777213", 11, 3),
    (".byte 1\n.bss\n.zero 16777215", 0, 0),
    // Zeros begin at a multiple of 4: the bytes skipped before them count.
    (".data\n.byte 1\n.bss\n.zero 16777212", 0, 0),
    (".data\n.byte 1\n.bss\n.zero 16777213", 11, 4),
];

#[test]
fn addresses_and_sizes_have_their_limit(rt: HostRuntime) -> Result<(), &'static str> {
    each_has_fault(rt.alloc(), &LIMITS)
}

// Two sources, and the number, source and line of their fault. Parsing comes before placing,
// placing before evaluation; in a phase the first statement with a fault counts.
const PHASES: [([&str; 2], u8, usize, usize); 9] = [
    (["j nowhere\na:\na:", "foo"], 2, 1, 1),
    (["j nowhere\na:", "a:"], 7, 1, 1),
    (["j nowhere", "addi a0, a0, 2048"], 6, 0, 1),
    (["addi a0, a0, 2048", "j nowhere"], 5, 0, 1),
    ([".byte 1\na: nop", "a:"], 10, 0, 2),
    ([".byte 1\n.zero 16777216\nnop", ""], 10, 0, 3),
    (["1: j 1b\nj 1f", "1: nop"], 6, 0, 2),
    (["1: nop", "j 1b\n1: nop"], 6, 1, 1),
    (["1: j 1b\nj 1f\n1: nop", "j 1f\n1: j 1b"], 0, 0, 0),
];

#[test]
fn the_first_phase_with_a_fault_decides(rt: HostRuntime) {
    for (sources, number, source, line) in &PHASES {
        let fault = fault_of(rt.alloc(), sources.as_slice());
        let [first, _] = sources;
        assert!(rt; fault == (*number, *source, *line), "{first}");
    }
}

// Each source starts in the text; data comes after all text, zeros after all data.
const TWO_SOURCES: [&str; 2] = [
    ".globl _start, no\nx: nop\n.data\nd: .byte 7\n.bss\nz: .zero 5",
    "_start: nop\n.data\ne: .byte 8",
];

// Their symbols.
const SYMBOLS: [(&str, Symbol); 5] = [
    (
        "x",
        Symbol {
            section: Section::Text,
            address: TEXT_BASE,
            global: false,
        },
    ),
    (
        "d",
        Symbol {
            section: Section::Data,
            address: 0x0001_1000,
            global: false,
        },
    ),
    (
        "z",
        Symbol {
            section: Section::Zeros,
            address: 0x0001_1004,
            global: false,
        },
    ),
    (
        "_start",
        Symbol {
            section: Section::Text,
            address: 0x0001_0004,
            global: true,
        },
    ),
    (
        "e",
        Symbol {
            section: Section::Data,
            address: 0x0001_1001,
            global: false,
        },
    ),
];

// Whether a program has these symbols and no others.
fn has_symbols(program: &Program<Global>) -> bool {
    for (name, symbol) in &SYMBOLS {
        if program.symbols().get(*name).copied() != Some(*symbol) {
            return false;
        }
    }
    program.symbols().len() == SYMBOLS.len()
}

// Whether a program has the entry, the data, the zeros and the size of the text of these sources.
fn has_parts(program: &Program<Global>) -> bool {
    program.entry() == 0x0001_0004
        && program.bytes() == [7, 8].as_slice()
        && program.zeros() == 5
        && program.text().len() == 8
}

// Whether the program of these sources has its symbols and its parts.
fn are_in_order(alloc: Global) -> Result<bool, AsmFault> {
    let program = assemble(alloc, TWO_SOURCES.as_slice())?;
    Ok(has_symbols(&program) && has_parts(&program))
}

#[test]
fn symbols_keep_their_order(rt: HostRuntime) {
    assert!(rt; are_in_order(rt.alloc()) == Ok(true));
}
