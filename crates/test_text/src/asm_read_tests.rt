//! Properties without a clause: worked texts and each fault.
use asm_parse::statements;
use asm_statement::{
    AsmFault, Body, Directive, FaultKind, Immediate, Instruction, Section, Statement, Target,
};
use std::alloc::{AllocError, Global};

// The number of statements of a source; `None` on a fault.
fn count_of(alloc: Global, source: &str) -> Option<usize> {
    let all = statements(alloc, [source].as_slice()).ok()?;
    Some(all.len())
}

// Whether each of these sources has this many statements; else the first one that has not.
fn each_has(alloc: Global, sources: &[&'static str], count: usize) -> Result<(), &'static str> {
    for source in sources {
        if count_of(alloc, source) != Some(count) {
            return Err(source);
        }
    }
    Ok(())
}

// Instructions, one of each form.
const INSTRUCTIONS: [&str; 37] = [
    "lui a0, 0x11",
    "lui a0, %hi(x + 5)",
    "auipc a0, %hi(-5)",
    "jal zero, x",
    "jal x",
    "jal ra, 0x10000",
    "jal 1b",
    "jalr ra, 1(ra)",
    "jalr ra, ra, 1",
    "jalr a0",
    "jalr a0, (a1)",
    "jalr a0, a1, %lo(x)",
    "jalr a0, %lo(x)(a1)",
    "beq a0, fp, 1f",
    "bgeu x31, x0, x",
    "lw a0, 4(sp)",
    "lb a0, -1(zero)",
    "lhu a0, (a1)",
    "lw a0, %lo(x-4)(a1)",
    "sw a1, 4(t0)",
    "sb a1, (t0)",
    "addi a0, a0, -1",
    "addi a0, a0, %lo(x)",
    "andi a0, a0, - 5",
    "slli t0, a0, 31",
    "add a0, a1, a2",
    "sra a0, a1, a2",
    "fence",
    "fence iorw, rw",
    "fence.tso",
    "ecall",
    "ebreak",
    "lr.w t2, (s1)",
    "lr.w.aq t2, 0(s1)",
    "sc.w.rl t3, t1, (s1)",
    "amoadd.w.aqrl t2, t1, -0(s1)",
    "amomaxu.w t2, t1, (s1)",
];

#[test]
fn each_form_of_an_instruction_is_taken(rt: HostRuntime) -> Result<(), &'static str> {
    each_has(rt.alloc(), &INSTRUCTIONS, 1)
}

// Pseudo-instructions.
const PSEUDO_INSTRUCTIONS: [&str; 28] = [
    "nop",
    "mv a0, a1",
    "not a0, a1",
    "neg a0, a1",
    "seqz a0, a1",
    "snez a0, a1",
    "sltz a0, a1",
    "sgtz a0, a1",
    "beqz a0, x",
    "bnez a0, x",
    "bgez a0, x",
    "bltz a0, x",
    "blez a0, x",
    "bgtz a0, x",
    "bgt a0, a1, x",
    "ble a0, a1, x",
    "bgtu a0, a1, x",
    "bleu a0, a1, x",
    "j 1f",
    "jr a0",
    "ret",
    "li a0, 0x800",
    "li a0, -1",
    "la a0, x",
    "la a0, x--5",
    "la a0, x+-5",
    "call f",
    "tail f",
];

#[test]
fn each_pseudo_instruction_is_taken(rt: HostRuntime) -> Result<(), &'static str> {
    each_has(rt.alloc(), &PSEUDO_INSTRUCTIONS, 1)
}

// Directives with an effect.
const DIRECTIVES: [&str; 18] = [
    ".text",
    ".data",
    ".bss",
    ".section .text.init, \"ax\"",
    ".section .rodata",
    ".word 1, x+4, -5",
    ".half 1, -2",
    ".byte 1",
    ".ascii \"a\\n\\\"\\\\\"",
    ".asciz \"\", \"\\0\\377\"",
    ".string \"b\"",
    ".zero 12",
    ".space 1",
    ".skip 0",
    ".align 2",
    ".p2align 12",
    ".globl _start",
    ".global a, b",
];

#[test]
fn each_directive_is_taken(rt: HostRuntime) -> Result<(), &'static str> {
    each_has(rt.alloc(), &DIRECTIVES, 1)
}

// Sources without statements.
const SILENT: [&str; 9] = [
    "",
    "# a",
    ";;",
    ".file \"a\", @b",
    ".size x, .-x",
    ".type x, @function",
    ".option norvc",
    ".ident",
    ".attribute 5",
];

#[test]
fn what_says_nothing_is_taken(rt: HostRuntime) -> Result<(), &'static str> {
    each_has(rt.alloc(), &SILENT, 0)
}

// Sources, and the number, source and line of their fault.
type Faulty = (&'static [&'static str], (u8, usize, usize));

// The number, source and line of the fault of sources; `None` if there is none, or when out of
// memory.
fn fault_of(alloc: Global, sources: &[&str]) -> Option<(u8, usize, usize)> {
    match statements(alloc, sources) {
        Err(AsmFault::At(fault)) => Some((fault.kind.number(), fault.source, fault.line)),
        _ => None,
    }
}

// Whether each of these rows has its fault; else the first source of the first one that has not.
fn each_is_told(alloc: Global, rows: &[Faulty]) -> Result<(), &'static str> {
    for (sources, wanted) in rows {
        if fault_of(alloc, sources) != Some(*wanted) {
            return Err(sources.first().copied().unwrap_or(""));
        }
    }
    Ok(())
}

// Faults among others.
const FIRST_FAULTS: [Faulty; 15] = [
    (&["addi a0, a0, 4096\nfoo"], (2, 0, 2)),
    (&["addi a0, a0"], (3, 0, 1)),
    (&["addi a0, q9, 1"], (4, 0, 1)),
    (&[".bss\n.word 1"], (9, 0, 2)),
    (&["nop", "nop\n\nfoo"], (2, 1, 3)),
    (&["foo\n08"], (2, 0, 1)),
    (&["nop; 08"], (1, 0, 1)),
    (&["foo a0 08"], (1, 0, 1)),
    (&["nop\nfoo \"a\nb\""], (1, 0, 2)),
    (&["foo", "08"], (2, 0, 1)),
    (&["lw a0, 4(q9)"], (4, 0, 1)),
    (&["li q9, 1"], (4, 0, 1)),
    (&[".bss; li q9, 1"], (4, 0, 1)),
    (&[".bss; .ascii \"\""], (9, 0, 1)),
    (&[".bss; nop"], (9, 0, 1)),
];

#[test]
fn the_lowest_fault_of_the_earliest_statement_is_told(rt: HostRuntime) -> Result<(), &'static str> {
    each_is_told(rt.alloc(), &FIRST_FAULTS)
}

// Unknown heads.
const HEADS: [Faulty; 8] = [
    (&["5"], (2, 0, 1)),
    (&["\"x\""], (2, 0, 1)),
    (&["0x1: nop"], (2, 0, 1)),
    (&["1b: nop"], (2, 0, 1)),
    (&["08: nop"], (1, 0, 1)),
    (&["ADDI a0, a0, 1"], (2, 0, 1)),
    (&["add.aq a0, a0, a0"], (2, 0, 1)),
    (&[".foo 1"], (9, 0, 1)),
];

#[test]
fn heads_that_say_nothing_are_told(rt: HostRuntime) -> Result<(), &'static str> {
    each_is_told(rt.alloc(), &HEADS)
}

// Wrong operands of directives.
const OPERANDS_OF_DIRECTIVES: [Faulty; 17] = [
    (&[".section .foo"], (3, 0, 1)),
    (&[".section .text."], (3, 0, 1)),
    (&[".section .textual"], (3, 0, 1)),
    (&[".text 1"], (3, 0, 1)),
    (&[".word"], (3, 0, 1)),
    (&[".word 1,"], (3, 0, 1)),
    (&[".half x"], (3, 0, 1)),
    (&[".zero -1"], (3, 0, 1)),
    (&[".space -1"], (3, 0, 1)),
    (&[".skip -1"], (3, 0, 1)),
    (&[".align -1"], (3, 0, 1)),
    (&[".p2align -1"], (3, 0, 1)),
    (&[".align"], (3, 0, 1)),
    (&[".globl 5"], (3, 0, 1)),
    (&[".ascii \"\\x\""], (3, 0, 1)),
    (&[".ascii \"\\400\""], (3, 0, 1)),
    (&[".ascii \"\\8\""], (3, 0, 1)),
];

#[test]
fn wrong_operands_of_directives_are_told(rt: HostRuntime) -> Result<(), &'static str> {
    each_is_told(rt.alloc(), &OPERANDS_OF_DIRECTIVES)
}

// Wrong operands of instructions.
const OPERANDS_OF_INSTRUCTIONS: [Faulty; 14] = [
    (&["addi q9, a0"], (3, 0, 1)),
    (&["lr.w a0, 4(a1)"], (3, 0, 1)),
    (&["lr.w a0, %lo(0)(a1)"], (3, 0, 1)),
    (&["slli a0, a0, %lo(1)"], (3, 0, 1)),
    (&["jalr a0, a1"], (3, 0, 1)),
    (&["fence wr, rw"], (3, 0, 1)),
    (&["add a0, 1b, a1"], (3, 0, 1)),
    (&["lui a0, x"], (3, 0, 1)),
    (&["lui a0, %lo(x)"], (3, 0, 1)),
    (&["addi a0, a0, %hi(x)"], (3, 0, 1)),
    (&["call f+4"], (3, 0, 1)),
    (&["la a0, 5"], (3, 0, 1)),
    (&["j x+4"], (3, 0, 1)),
    (&["nop nop"], (3, 0, 1)),
];

#[test]
fn wrong_operands_of_instructions_are_told(rt: HostRuntime) -> Result<(), &'static str> {
    each_is_told(rt.alloc(), &OPERANDS_OF_INSTRUCTIONS)
}

// Register names and their numbers, by the ABI.
#[rattlefmt::skip]
const REGISTERS: [(&str, u8); 65] = [
    ("zero", 0), ("x0", 0),
    ("ra", 1), ("x1", 1),
    ("sp", 2), ("x2", 2),
    ("gp", 3), ("x3", 3),
    ("tp", 4), ("x4", 4),
    ("t0", 5), ("x5", 5),
    ("t1", 6), ("x6", 6),
    ("t2", 7), ("x7", 7),
    ("s0", 8), ("x8", 8),
    ("s1", 9), ("x9", 9),
    ("a0", 10), ("x10", 10),
    ("a1", 11), ("x11", 11),
    ("a2", 12), ("x12", 12),
    ("a3", 13), ("x13", 13),
    ("a4", 14), ("x14", 14),
    ("a5", 15), ("x15", 15),
    ("a6", 16), ("x16", 16),
    ("a7", 17), ("x17", 17),
    ("s2", 18), ("x18", 18),
    ("s3", 19), ("x19", 19),
    ("s4", 20), ("x20", 20),
    ("s5", 21), ("x21", 21),
    ("s6", 22), ("x22", 22),
    ("s7", 23), ("x23", 23),
    ("s8", 24), ("x24", 24),
    ("s9", 25), ("x25", 25),
    ("s10", 26), ("x26", 26),
    ("s11", 27), ("x27", 27),
    ("t3", 28), ("x28", 28),
    ("t4", 29), ("x29", 29),
    ("t5", 30), ("x30", 30),
    ("t6", 31), ("x31", 31),
    ("fp", 8),
];

// Names that are no register's.
const NO_REGISTERS: [&str; 9] = ["x32", "x00", "x", "X1", "a8", "t7", "s12", "s", ""];

// The source `lui NAME, 1`.
fn lui_of(alloc: Global, name: &str) -> Result<String<Global>, AllocError> {
    format!(in alloc; "lui {name}, 1")
}

// The register that the first of some statements writes, if that is `lui`.
fn register_of(all: &[Statement<Global>]) -> Option<u8> {
    match all.first().map(|statement| &statement.body) {
        Some(Body::Instruction(Instruction::Lui { rd, .. })) => Some(rd.number()),
        _ => None,
    }
}

// The register that `lui NAME, 1` writes; `None` for a fault or another statement.
fn number_of(alloc: Global, name: &str) -> Option<u8> {
    let source = lui_of(alloc, name).ok()?;
    let all = statements(alloc, [source.as_str()].as_slice()).ok()?;
    register_of(&all)
}

#[test]
fn registers_have_their_numbers(rt: HostRuntime) {
    for (name, number) in &REGISTERS {
        assert!(rt; number_of(rt.alloc(), name) == Some(*number), "{name}");
    }
}

// Whether `lui NAME, 1` has a fault; `None` when out of memory.
fn is_faulty(alloc: Global, name: &str) -> Option<bool> {
    let source = lui_of(alloc, name).ok()?;
    Some(fault_of(alloc, [source.as_str()].as_slice()).is_some())
}

#[test]
fn other_names_are_no_registers(rt: HostRuntime) {
    for name in &NO_REGISTERS {
        assert!(rt; is_faulty(rt.alloc(), name) == Some(true), "{name}");
    }
}

fn is_label(statement: &Statement<Global>, wanted: &str) -> bool {
    matches!(&statement.body, Body::Label(name) if name.as_str() == wanted)
}

fn is_local_label(statement: &Statement<Global>, wanted: &str) -> bool {
    matches!(&statement.body, Body::LocalLabel(name) if name.as_str() == wanted)
}

// Whether a statement is an instruction with the immediate 0, as `nop` is.
fn is_nop(statement: &Statement<Global>) -> bool {
    matches!(
        &statement.body,
        Body::Instruction(Instruction::Immediate {
            imm: Immediate::Number(0),
            ..
        })
    )
}

// Whether a statement is a backward jump to a local label.
fn is_jump_back(statement: &Statement<Global>, wanted: &str) -> bool {
    matches!(&statement.body, Body::Instruction(Instruction::Jal { target: Target::Back(name), .. }) if name.as_str() == wanted)
}

// Whether these are the statements of three labels, `nop`, and a jump on line 3.
fn are_labels_first(all: &[Statement<Global>]) -> bool {
    let [first, second, third, nop, jump] = all else {
        return false;
    };
    is_label(first, "a")
        && is_local_label(second, "1")
        && is_label(third, "b")
        && is_nop(nop)
        && is_jump_back(jump, "1")
        && jump.line == 3
}

// Whether labels come before their statement.
fn labels_are_first(alloc: Global) -> Result<bool, AsmFault> {
    let all = statements(alloc, ["a: 1: b: nop\n\nj 1b"].as_slice())?;
    Ok(are_labels_first(&all))
}

#[test]
fn labels_stand_before_their_statement(rt: HostRuntime) {
    assert!(rt; labels_are_first(rt.alloc()) == Ok(true) && FaultKind::Token.number() == 1);
}

// Whether there are three statements, and the second one, of the second source, selects the text.
fn is_text_second(all: &[Statement<Global>]) -> bool {
    let [_, second, _] = all else {
        return false;
    };
    let is_text = matches!(
        &second.body,
        Body::Directive(Directive::Section(Section::Text))
    );
    is_text && second.source == 1
}

// Whether a second source starts in the text, though the first one ends in the data.
fn second_begins_in_text(alloc: Global) -> Result<bool, AsmFault> {
    let all = statements(alloc, [".data", "nop"].as_slice())?;
    Ok(is_text_second(&all))
}

#[test]
fn each_source_begins_in_text(rt: HostRuntime) {
    assert!(rt; second_begins_in_text(rt.alloc()) == Ok(true));
}
