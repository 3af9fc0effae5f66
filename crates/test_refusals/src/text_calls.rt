//! Calls that make statements, programs, listings and files of texts.
use asm_assemble::Program;
use asm_lex::{TextFault, scan_text, tokens};
use asm_parse::statements;
use asm_round_trip::{list, list_source};
use asm_statement::AsmFault;
use cmd_asm::assemble;
use elf_write::write_elf;
use object_library::{Kind, source};
use std::alloc::{AllocError, Allocator, Global};
use test_refusing::{Call, tried};

// A call.
#[derive(Clone, Copy)]
enum TextCall {
    Scan,
    Tokens,
    Statements,
    Assemble,
    List,
    ListSource,
    WriteElf,
}

// All of them.
const CALLS: [(&str, TextCall); 7] = [
    ("scan_text", TextCall::Scan),
    ("tokens", TextCall::Tokens),
    ("statements", TextCall::Statements),
    ("assemble", TextCall::Assemble),
    ("list", TextCall::List),
    ("list_source", TextCall::ListSource),
    ("write_elf", TextCall::WriteElf),
];

const LETTERS: &str = "a b c d e f g h i j k l m n o p q r s t u v w x y z";

// Seven statements.
const STATEMENTS: &str =
    "a: nop\n.word 1, 2, 3, 4, 5, x\n.ascii \"abcdefghijkl\"\n.globl a, b\n.half 1\nj a";

// Twelve bytes of data.
const SOURCE: &str =
    ".globl a\na: nop\n1: j 1b\nj 1f\n1: la a0, a\n.align 3\n.data\nb: .word 1, a\n.zero 3\n.ascii \"x\"";

const LISTED: &str = "nop\n.byte 1";

const LISTING: &str = "addi zero, zero, 0  # 00010000 00000013\n.byte 0x01  # 00010004\n";

impl Call for TextCall {
    fn answer<A: Allocator + Copy>(&self, alloc: A, _host: Global) -> Result<bool, AllocError> {
        match self {
            TextCall::Scan => is_scanned(alloc),
            TextCall::Tokens => has_tokens(alloc),
            TextCall::Statements => has_statements(alloc),
            TextCall::Assemble => is_assembled(alloc),
            TextCall::List => is_listed(alloc),
            TextCall::ListSource => is_source_listed(alloc),
            TextCall::WriteElf => is_written(alloc),
        }
    }
}

fn is_scanned<A: Allocator + Copy>(alloc: A) -> Result<bool, AllocError> {
    let scan = scan_text(alloc, LETTERS)?;
    Ok(scan.tokens.len() == 26)
}

// The program of a source that assembles.
fn program_of<A: Allocator + Copy>(alloc: A, text: &str) -> Result<Program<A>, AllocError> {
    match assemble(alloc, [text].as_slice()) {
        Ok(program) => Ok(program),
        Err(_) => Err(AllocError),
    }
}

fn is_listed<A: Allocator + Copy>(alloc: A) -> Result<bool, AllocError> {
    let program = program_of(alloc, LISTED)?;
    let text = list(alloc, &program)?;
    Ok(text.as_str() == LISTING)
}

fn is_source_listed<A: Allocator + Copy>(alloc: A) -> Result<bool, AllocError> {
    let program = program_of(alloc, LISTED)?;
    let text = list_source(alloc, &program)?;
    Ok(text.as_str() == LISTING)
}

fn is_written<A: Allocator + Copy>(alloc: A) -> Result<bool, AllocError> {
    let program = program_of(alloc, source(Kind::Swap))?;
    let file = write_elf(alloc, &program)?;
    Ok(file.len() == 8576)
}

fn has_tokens<A: Allocator + Copy>(alloc: A) -> Result<bool, AllocError> {
    match tokens(alloc, LETTERS) {
        Ok(all) => Ok(all.len() == 26),
        Err(TextFault::Memory) => Err(AllocError),
        Err(_) => Ok(false),
    }
}

fn has_statements<A: Allocator + Copy>(alloc: A) -> Result<bool, AllocError> {
    match statements(alloc, [STATEMENTS].as_slice()) {
        Ok(all) => Ok(all.len() == 7),
        Err(AsmFault::Memory) => Err(AllocError),
        Err(_) => Ok(false),
    }
}

fn is_assembled<A: Allocator + Copy>(alloc: A) -> Result<bool, AllocError> {
    match assemble(alloc, [SOURCE].as_slice()) {
        Ok(program) => Ok(program.bytes().len() == 12),
        Err(AsmFault::Memory) => Err(AllocError),
        Err(_) => Ok(false),
    }
}

#[test]
fn calls_on_texts_tell_want_of_memory(rt: HostRuntime) {
    for (name, call) in &CALLS {
        assert!(rt; tried(rt.alloc(), call) == Ok(()), "{name}");
    }
}
