//! The canonical line of a word.

ghost use Rattle.std.specs.Prelude.{◌≡◌, ◌≤◌, ◌+◌, ◌++◌, Some, IfOk, length, string_bytes};
ghost use Rattle.isa_table.specs.Names.{name_of};
ghost use Rattle.isa_disasm.specs.Lines.{fence_line, instr_line, line_text};
ghost use Rattle.isa_table.specs.declared.instr.Instr.{Instr};

use crate::buffer::LineBuffer;
use crate::shapes::{
    push_atomic, push_branch, push_immediate, push_jump, push_memory, push_registers,
    push_reserved, push_sets, push_shift, push_upper, push_word_line,
};
use isa_decode::decode;
use isa_table::{FenceSet, Instr, Mnemonic, Order};
use std::alloc::{AllocError, Allocator};
use std::fmt;

/// A word at an address (in bytes), displayed as its canonical assembly line, without a line end.
/// The line is the instruction that the word spells, with the target addresses of branches and
/// jumps. It is `.word` if the word spells none or a fence without a text of its own. Registers
/// have their ABI names; x8 is `s0`.
#[derive(Clone, Copy)]
pub struct Line {
    /// The address of the word.
    pub address: u32,
    /// The word.
    pub word: u32,
}

impl fmt::Display for Line {
    ghost output = { λ l. Some (line_text l.address l.word) };

    fn fmt<W: fmt::Write>(&self, f: &mut fmt::Formatter<W>) -> fmt::Result {
        let mut line = LineBuffer::new();
        push_line(&mut line, self.address, self.word);
        f.write_str(line.as_str())
    }
}

/// Appends the canonical line of a word, without a line end. It takes at most 40 bytes.
#[tactic(auto, unfolding(crate::specs::Lines::line_text))]
pub fn push_line(line: &mut LineBuffer, address: u32, word: u32)
    requires { length line.old + 40 ≤ 64 }
    ensures value { line.new ≡ line.old ++ line_text address word }
    ensures short { length line.new ≤ length line.old + 40 }
{
    match decode(word) {
        Some(instr) => push_instr(line, address, word, instr),
        None => push_word_line(line, word),
    }
}

// A mnemonic's name.
#[tactic(auto, using(crate::proofs::NameLemmas::name_short))]
fn name_of(mnemonic: Mnemonic) -> &'static str
    ensures value { result.now ≡ name_of mnemonic }
    ensures short { length result.now ≤ 16 }
{
    mnemonic.name()
}

// The line of the instruction that the word spells.
fn push_instr(line: &mut LineBuffer, address: u32, word: u32, instr: Instr)
    requires { length line.old + 40 ≤ 64 }
    ensures value { line.new ≡ line.old ++ instr_line address word (Some instr) }
    ensures short { length line.new ≤ length line.old + 40 }
{
    let name = name_of(instr.mnemonic());
    match instr {
        Instr::Lui { rd, imm } | Instr::Auipc { rd, imm } => push_upper(line, name, rd, imm),
        Instr::Jal { rd, offset } => push_jump(line, rd, address.wrapping_add(offset.word())),
        Instr::Jalr { rd, rs1, imm } => push_memory(line, name, rd, imm, rs1),
        Instr::Branch {
            rs1,
            rs2,
            offset,
            ..
        } => push_branch(line, name, rs1, rs2, address.wrapping_add(offset.word())),
        Instr::Load { rd, rs1, imm, .. } => push_memory(line, name, rd, imm, rs1),
        Instr::Store { rs1, rs2, imm, .. } => push_memory(line, name, rs2, imm, rs1),
        Instr::Immediate { rd, rs1, imm, .. } => push_immediate(line, name, rd, rs1, imm),
        Instr::Shift {
            rd,
            rs1,
            amount,
            ..
        } => push_shift(line, name, rd, rs1, amount),
        Instr::Register { rd, rs1, rs2, .. } => push_registers(line, name, rd, rs1, rs2),
        Instr::Fence {
            mode,
            pred,
            succ,
            rs1,
            rd,
        } => {
            if rs1.number() == 0 && rd.number() == 0 {
                push_fence(line, word, mode, pred, succ)
            } else {
                push_word_line(line, word)
            }
        }
        Instr::Ecall | Instr::Ebreak => line.push(name),
        Instr::LoadReserved { aq, rl, rd, rs1 } => push_reserved(line, Order { aq, rl }, rd, rs1),
        Instr::StoreConditional {
            aq,
            rl,
            rd,
            rs1,
            rs2,
        } => push_atomic(line, name, Order { aq, rl }, rd, rs2, rs1),
        Instr::Amo {
            aq,
            rl,
            rd,
            rs1,
            rs2,
            ..
        } => push_atomic(line, name, Order { aq, rl }, rd, rs2, rs1),
    }
}

// The line of a fence whose rd and rs1 are x0.
fn push_fence(line: &mut LineBuffer, word: u32, mode: FenceSet, pred: FenceSet, succ: FenceSet)
    requires { length line.old + 40 ≤ 64 }
    ensures value { line.new ≡ line.old ++ fence_line word mode pred succ 0 0 }
    ensures short { length line.new ≤ length line.old + 40 }
{
    match (mode.bits(), pred.bits(), succ.bits()) {
        (8, 3, 3) => line.push("fence.tso"),
        (0, 1.., 1..) => push_sets(line, pred, succ),
        _ => push_word_line(line, word),
    }
}

/// The canonical line of a word at an address (in bytes), without a line end. Fails when out of
/// memory.
pub fn line_of<A: Allocator>(alloc: A, address: u32, word: u32) -> Result<String<A>, AllocError>
    ensures { IfOk result (λ text. string_bytes text ≡ line_text address word) }
{
    let line = Line { address, word };
    format!(in alloc; "{line}")
}
