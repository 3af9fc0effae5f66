//! The shapes of operands, one function each. A shape takes at most 40 bytes of a line.

ghost use Rattle.std.specs.Prelude.{◌≡◌, ◌≤◌, ◌+◌, ◌++◌, codes, length};
ghost use Rattle.isa_table.specs.Signed.{signed_of};
ghost use Rattle.isa_names.specs.Names.{abi};
ghost use Rattle.isa_disasm.specs.Lines.{word_line, upper_line, jump_line, branch_line, memory_line, immediate_line, shift_line, register_line, reserved_line, atomic_line, sets_line, suffix};

use crate::buffer::LineBuffer;
use isa_table::{FenceSet, Immediate12, Order, Reg, ShiftAmount, UpperImmediate};

/// A `.word` line.
pub fn push_word_line(line: &mut LineBuffer, word: u32)
    requires { length line.old + 40 ≤ 64 }
    ensures value { line.new ≡ line.old ++ word_line word }
    ensures short { length line.new ≤ length line.old + 40 }
{
    line.push(".word 0x");
    line.push_word(word);
}

/// LUI and AUIPC.
pub fn push_upper(line: &mut LineBuffer, name: &str, rd: Reg, imm: UpperImmediate)
    requires named { length name.now ≤ 16 }
    requires room { length line.old + 40 ≤ 64 }
    ensures value { line.new ≡ line.old ++ upper_line name.now rd imm }
    ensures short { length line.new ≤ length line.old + 40 }
{
    line.push(name);
    line.push(" ");
    line.push_register(rd);
    line.push(", 0x");
    line.push_upper_immediate(imm);
}

/// JAL.
pub fn push_jump(line: &mut LineBuffer, rd: Reg, target: u32)
    requires { length line.old + 40 ≤ 64 }
    ensures value { line.new ≡ line.old ++ jump_line rd target }
    ensures short { length line.new ≤ length line.old + 40 }
{
    line.push("jal ");
    line.push_register(rd);
    line.push(", 0x");
    line.push_word(target);
}

/// The branches.
pub fn push_branch(line: &mut LineBuffer, name: &str, rs1: Reg, rs2: Reg, target: u32)
    requires named { length name.now ≤ 16 }
    requires room { length line.old + 40 ≤ 64 }
    ensures value { line.new ≡ line.old ++ branch_line name.now rs1 rs2 target }
    ensures short { length line.new ≤ length line.old + 40 }
{
    line.push(name);
    line.push(" ");
    line.push_register(rs1);
    line.push(", ");
    line.push_register(rs2);
    line.push(", 0x");
    line.push_word(target);
}

/// Loads, stores and JALR.
pub fn push_memory(line: &mut LineBuffer, name: &str, register: Reg, offset: Immediate12, base: Reg)
    requires named { length name.now ≤ 16 }
    requires room { length line.old + 40 ≤ 64 }
    ensures value { line.new ≡ line.old ++ memory_line name.now register (signed_of offset) base }
    ensures short { length line.new ≤ length line.old + 40 }
{
    line.push(name);
    line.push(" ");
    line.push_register(register);
    line.push(", ");
    line.push_immediate(offset);
    line.push("(");
    line.push_register(base);
    line.push(")");
}

/// Operations with an immediate.
pub fn push_immediate(line: &mut LineBuffer, name: &str, rd: Reg, rs1: Reg, imm: Immediate12)
    requires named { length name.now ≤ 16 }
    requires room { length line.old + 40 ≤ 64 }
    ensures value { line.new ≡ line.old ++ immediate_line name.now rd rs1 (signed_of imm) }
    ensures short { length line.new ≤ length line.old + 40 }
{
    line.push(name);
    line.push(" ");
    line.push_register(rd);
    line.push(", ");
    line.push_register(rs1);
    line.push(", ");
    line.push_immediate(imm);
}

/// Shifts by an immediate.
pub fn push_shift(line: &mut LineBuffer, name: &str, rd: Reg, rs1: Reg, amount: ShiftAmount)
    requires named { length name.now ≤ 16 }
    requires room { length line.old + 40 ≤ 64 }
    ensures value { line.new ≡ line.old ++ shift_line name.now rd rs1 amount }
    ensures short { length line.new ≤ length line.old + 40 }
{
    line.push(name);
    line.push(" ");
    line.push_register(rd);
    line.push(", ");
    line.push_register(rs1);
    line.push(", ");
    line.push_amount(amount);
}

/// Operations on two registers.
pub fn push_registers(line: &mut LineBuffer, name: &str, rd: Reg, rs1: Reg, rs2: Reg)
    requires named { length name.now ≤ 16 }
    requires room { length line.old + 40 ≤ 64 }
    ensures value { line.new ≡ line.old ++ register_line name.now rd rs1 rs2 }
    ensures short { length line.new ≤ length line.old + 40 }
{
    line.push(name);
    line.push(" ");
    line.push_register(rd);
    line.push(", ");
    line.push_register(rs1);
    line.push(", ");
    line.push_register(rs2);
}

// An ordering as a suffix.
fn suffix_of(order: Order) -> &'static str
    ensures value { result.now ≡ suffix order.aq order.rl }
    ensures short { length result.now ≤ 5 }
{
    match (order.aq, order.rl) {
        (true, true) => ".aqrl",
        (true, false) => ".aq",
        (false, true) => ".rl",
        (false, false) => "",
    }
}

// The register with the address of an atomic access.
fn push_address(line: &mut LineBuffer, base: Reg)
    requires { length line.old + 8 ≤ 64 }
    ensures value { line.new ≡ line.old ++ (codes ", (" ++ (abi base ++ codes ")")) }
    ensures short { length line.new ≤ length line.old + 8 }
{
    line.push(", (");
    line.push_register(base);
    line.push(")");
}

/// LR.W.
pub fn push_reserved(line: &mut LineBuffer, order: Order, rd: Reg, rs1: Reg)
    requires { length line.old + 40 ≤ 64 }
    ensures value { line.new ≡ line.old ++ reserved_line order.aq order.rl rd rs1 }
    ensures short { length line.new ≤ length line.old + 40 }
{
    line.push("lr.w");
    line.push(suffix_of(order));
    line.push(" ");
    line.push_register(rd);
    push_address(line, rs1);
}

/// SC.W and the atomic memory operations.
pub fn push_atomic(line: &mut LineBuffer, name: &str, order: Order, rd: Reg, rs2: Reg, rs1: Reg)
    requires named { length name.now ≤ 16 }
    requires room { length line.old + 40 ≤ 64 }
    ensures value { line.new ≡ line.old ++ atomic_line name.now order.aq order.rl rd rs2 rs1 }
    ensures short { length line.new ≤ length line.old + 40 }
{
    line.push(name);
    line.push(suffix_of(order));
    line.push(" ");
    line.push_register(rd);
    line.push(", ");
    line.push_register(rs2);
    push_address(line, rs1);
}

/// FENCE with two sets.
pub fn push_sets(line: &mut LineBuffer, pred: FenceSet, succ: FenceSet)
    requires { length line.old + 40 ≤ 64 }
    ensures value { line.new ≡ line.old ++ sets_line pred succ }
    ensures short { length line.new ≤ length line.old + 40 }
{
    line.push("fence ");
    line.push_set(pred);
    line.push(", ");
    line.push_set(succ);
}
