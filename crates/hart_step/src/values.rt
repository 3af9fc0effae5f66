//! The values that instructions compute.
ghost use Rattle.std.specs.Prelude.{◌≡◌, ◌<◌, ◌%◌, ◌^◌, ℕ};
ghost use Rattle.hart_step.specs.Values.{signed_lt, arithmetic_shift, flag, register_result, immediate_form, shift_form, is_taken, amo_result};

use isa_table::mnemonic::{AmoOp, BranchOp, ImmediateOp, RegisterOp, ShiftOp};

// Whether `a` is below `b` as signed words.
fn is_below_signed(a: u32, b: u32) -> bool
    ensures { result ≡ signed_lt a b }
{
    a.wrapping_add(0x8000_0000) < b.wrapping_add(0x8000_0000)
}

// An arithmetic right shift.
#[tactic(auto, using(crate::proofs::Words::high_ones, crate::proofs::Words::shift_room))]
fn shift_right_signed(a: u32, places: u32) -> u32
    requires { places < 32 }
    ensures { result ≡ arithmetic_shift a places }
{
    if a < 0x8000_0000 {
        a >> places
    } else {
        (a >> places) + (u32::MAX - (u32::MAX >> places))
    }
}

/// The result of a register-register operation.
#[tactic(auto, using(crate::proofs::Words::xor_is, crate::proofs::Words::and_is, crate::proofs::Words::or_is))]
pub fn register_result(op: RegisterOp, a: u32, b: u32) -> u32
    ensures { result ≡ register_result op a b }
{
    match op {
        RegisterOp::Add => a.wrapping_add(b),
        RegisterOp::Sub => a.wrapping_sub(b),
        RegisterOp::Sll => a << (b % 32),
        RegisterOp::Slt => u32::from(is_below_signed(a, b)),
        RegisterOp::Sltu => u32::from(a < b),
        RegisterOp::Xor => a ^ b,
        RegisterOp::Srl => a >> (b % 32),
        RegisterOp::Sra => shift_right_signed(a, b % 32),
        RegisterOp::Or => a | b,
        RegisterOp::And => a & b,
    }
}

/// The result of an operation with an immediate.
#[tactic(auto, using(crate::proofs::Words::xor_is, crate::proofs::Words::and_is, crate::proofs::Words::or_is))]
pub fn immediate_result(op: ImmediateOp, a: u32, immediate: u32) -> u32
    ensures { result ≡ register_result (immediate_form op) a immediate }
{
    match op {
        ImmediateOp::Addi => a.wrapping_add(immediate),
        ImmediateOp::Slti => u32::from(is_below_signed(a, immediate)),
        ImmediateOp::Sltiu => u32::from(a < immediate),
        ImmediateOp::Xori => a ^ immediate,
        ImmediateOp::Ori => a | immediate,
        ImmediateOp::Andi => a & immediate,
    }
}

/// The result of a shift by an immediate.
pub fn shift_result(op: ShiftOp, a: u32, places: u32) -> u32
    requires { places < 32 }
    ensures { result ≡ register_result (shift_form op) a places }
{
    match op {
        ShiftOp::Slli => a << places,
        ShiftOp::Srli => a >> places,
        ShiftOp::Srai => shift_right_signed(a, places),
    }
}

/// Whether a branch is taken.
pub fn is_taken(op: BranchOp, a: u32, b: u32) -> bool
    ensures { result ≡ is_taken op a b }
{
    match op {
        BranchOp::Beq => a == b,
        BranchOp::Bne => a != b,
        BranchOp::Blt => is_below_signed(a, b),
        BranchOp::Bge => !is_below_signed(a, b),
        BranchOp::Bltu => a < b,
        BranchOp::Bgeu => a >= b,
    }
}

/// The word that an AMO stores, given the old word and the register's value.
#[tactic(auto, using(crate::proofs::Words::xor_is, crate::proofs::Words::and_is, crate::proofs::Words::or_is))]
pub fn amo_result(op: AmoOp, old: u32, operand: u32) -> u32
    ensures { result ≡ amo_result op old operand }
{
    match op {
        AmoOp::Amoswap => operand,
        AmoOp::Amoadd => old.wrapping_add(operand),
        AmoOp::Amoxor => old ^ operand,
        AmoOp::Amoand => old & operand,
        AmoOp::Amoor => old | operand,
        AmoOp::Amomin => if is_below_signed(operand, old) {
            operand
        } else {
            old
        },
        AmoOp::Amomax => if is_below_signed(old, operand) {
            operand
        } else {
            old
        },
        AmoOp::Amominu => old.min(operand),
        AmoOp::Amomaxu => old.max(operand),
    }
}
