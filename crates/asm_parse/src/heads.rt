//! The first names of statements.
ghost use Rattle.std.specs.Prelude.{◌≡◌};
ghost use Rattle.asm_statement.specs.Heads.{head_of};

use crate::names::{find, first_of};
use asm_statement::{Head, Operation, Section, Unary};
use isa_table::{AmoOp, BranchOp, ImmediateOp, LoadOp, Order, RegisterOp, ShiftOp, StoreOp};

// Names that begin with `a`.
const A_HEADS: [(&str, Head); 41] = [
    ("auipc", Head::Operation(Operation::Auipc)),
    (
        "addi",
        Head::Operation(Operation::Immediate(ImmediateOp::Addi)),
    ),
    (
        "andi",
        Head::Operation(Operation::Immediate(ImmediateOp::Andi)),
    ),
    ("add", Head::Operation(Operation::Register(RegisterOp::Add))),
    ("and", Head::Operation(Operation::Register(RegisterOp::And))),
    (
        "amoswap.w",
        Head::Operation(Operation::Amo(AmoOp::Amoswap, Order::NONE)),
    ),
    (
        "amoswap.w.aq",
        Head::Operation(Operation::Amo(AmoOp::Amoswap, Order::ACQUIRE)),
    ),
    (
        "amoswap.w.rl",
        Head::Operation(Operation::Amo(AmoOp::Amoswap, Order::RELEASE)),
    ),
    (
        "amoswap.w.aqrl",
        Head::Operation(Operation::Amo(AmoOp::Amoswap, Order::BOTH)),
    ),
    (
        "amoadd.w",
        Head::Operation(Operation::Amo(AmoOp::Amoadd, Order::NONE)),
    ),
    (
        "amoadd.w.aq",
        Head::Operation(Operation::Amo(AmoOp::Amoadd, Order::ACQUIRE)),
    ),
    (
        "amoadd.w.rl",
        Head::Operation(Operation::Amo(AmoOp::Amoadd, Order::RELEASE)),
    ),
    (
        "amoadd.w.aqrl",
        Head::Operation(Operation::Amo(AmoOp::Amoadd, Order::BOTH)),
    ),
    (
        "amoxor.w",
        Head::Operation(Operation::Amo(AmoOp::Amoxor, Order::NONE)),
    ),
    (
        "amoxor.w.aq",
        Head::Operation(Operation::Amo(AmoOp::Amoxor, Order::ACQUIRE)),
    ),
    (
        "amoxor.w.rl",
        Head::Operation(Operation::Amo(AmoOp::Amoxor, Order::RELEASE)),
    ),
    (
        "amoxor.w.aqrl",
        Head::Operation(Operation::Amo(AmoOp::Amoxor, Order::BOTH)),
    ),
    (
        "amoand.w",
        Head::Operation(Operation::Amo(AmoOp::Amoand, Order::NONE)),
    ),
    (
        "amoand.w.aq",
        Head::Operation(Operation::Amo(AmoOp::Amoand, Order::ACQUIRE)),
    ),
    (
        "amoand.w.rl",
        Head::Operation(Operation::Amo(AmoOp::Amoand, Order::RELEASE)),
    ),
    (
        "amoand.w.aqrl",
        Head::Operation(Operation::Amo(AmoOp::Amoand, Order::BOTH)),
    ),
    (
        "amoor.w",
        Head::Operation(Operation::Amo(AmoOp::Amoor, Order::NONE)),
    ),
    (
        "amoor.w.aq",
        Head::Operation(Operation::Amo(AmoOp::Amoor, Order::ACQUIRE)),
    ),
    (
        "amoor.w.rl",
        Head::Operation(Operation::Amo(AmoOp::Amoor, Order::RELEASE)),
    ),
    (
        "amoor.w.aqrl",
        Head::Operation(Operation::Amo(AmoOp::Amoor, Order::BOTH)),
    ),
    (
        "amomin.w",
        Head::Operation(Operation::Amo(AmoOp::Amomin, Order::NONE)),
    ),
    (
        "amomin.w.aq",
        Head::Operation(Operation::Amo(AmoOp::Amomin, Order::ACQUIRE)),
    ),
    (
        "amomin.w.rl",
        Head::Operation(Operation::Amo(AmoOp::Amomin, Order::RELEASE)),
    ),
    (
        "amomin.w.aqrl",
        Head::Operation(Operation::Amo(AmoOp::Amomin, Order::BOTH)),
    ),
    (
        "amomax.w",
        Head::Operation(Operation::Amo(AmoOp::Amomax, Order::NONE)),
    ),
    (
        "amomax.w.aq",
        Head::Operation(Operation::Amo(AmoOp::Amomax, Order::ACQUIRE)),
    ),
    (
        "amomax.w.rl",
        Head::Operation(Operation::Amo(AmoOp::Amomax, Order::RELEASE)),
    ),
    (
        "amomax.w.aqrl",
        Head::Operation(Operation::Amo(AmoOp::Amomax, Order::BOTH)),
    ),
    (
        "amominu.w",
        Head::Operation(Operation::Amo(AmoOp::Amominu, Order::NONE)),
    ),
    (
        "amominu.w.aq",
        Head::Operation(Operation::Amo(AmoOp::Amominu, Order::ACQUIRE)),
    ),
    (
        "amominu.w.rl",
        Head::Operation(Operation::Amo(AmoOp::Amominu, Order::RELEASE)),
    ),
    (
        "amominu.w.aqrl",
        Head::Operation(Operation::Amo(AmoOp::Amominu, Order::BOTH)),
    ),
    (
        "amomaxu.w",
        Head::Operation(Operation::Amo(AmoOp::Amomaxu, Order::NONE)),
    ),
    (
        "amomaxu.w.aq",
        Head::Operation(Operation::Amo(AmoOp::Amomaxu, Order::ACQUIRE)),
    ),
    (
        "amomaxu.w.rl",
        Head::Operation(Operation::Amo(AmoOp::Amomaxu, Order::RELEASE)),
    ),
    (
        "amomaxu.w.aqrl",
        Head::Operation(Operation::Amo(AmoOp::Amomaxu, Order::BOTH)),
    ),
];

// Names that begin with `b`.
const B_HEADS: [(&str, Head); 16] = [
    ("beq", Head::Operation(Operation::Branch(BranchOp::Beq))),
    ("bne", Head::Operation(Operation::Branch(BranchOp::Bne))),
    ("blt", Head::Operation(Operation::Branch(BranchOp::Blt))),
    ("bge", Head::Operation(Operation::Branch(BranchOp::Bge))),
    ("bltu", Head::Operation(Operation::Branch(BranchOp::Bltu))),
    ("bgeu", Head::Operation(Operation::Branch(BranchOp::Bgeu))),
    (
        "beqz",
        Head::Operation(Operation::BranchZero(BranchOp::Beq)),
    ),
    (
        "bnez",
        Head::Operation(Operation::BranchZero(BranchOp::Bne)),
    ),
    (
        "bgez",
        Head::Operation(Operation::BranchZero(BranchOp::Bge)),
    ),
    (
        "bltz",
        Head::Operation(Operation::BranchZero(BranchOp::Blt)),
    ),
    (
        "blez",
        Head::Operation(Operation::ZeroBranch(BranchOp::Bge)),
    ),
    (
        "bgtz",
        Head::Operation(Operation::ZeroBranch(BranchOp::Blt)),
    ),
    (
        "bgt",
        Head::Operation(Operation::SwappedBranch(BranchOp::Blt)),
    ),
    (
        "ble",
        Head::Operation(Operation::SwappedBranch(BranchOp::Bge)),
    ),
    (
        "bgtu",
        Head::Operation(Operation::SwappedBranch(BranchOp::Bltu)),
    ),
    (
        "bleu",
        Head::Operation(Operation::SwappedBranch(BranchOp::Bgeu)),
    ),
];

// Names that begin with `l`.
const L_HEADS: [(&str, Head); 12] = [
    ("lui", Head::Operation(Operation::Lui)),
    ("lb", Head::Operation(Operation::Load(LoadOp::Lb))),
    ("lh", Head::Operation(Operation::Load(LoadOp::Lh))),
    ("lw", Head::Operation(Operation::Load(LoadOp::Lw))),
    ("lbu", Head::Operation(Operation::Load(LoadOp::Lbu))),
    ("lhu", Head::Operation(Operation::Load(LoadOp::Lhu))),
    (
        "lr.w",
        Head::Operation(Operation::LoadReserved(Order::NONE)),
    ),
    (
        "lr.w.aq",
        Head::Operation(Operation::LoadReserved(Order::ACQUIRE)),
    ),
    (
        "lr.w.rl",
        Head::Operation(Operation::LoadReserved(Order::RELEASE)),
    ),
    (
        "lr.w.aqrl",
        Head::Operation(Operation::LoadReserved(Order::BOTH)),
    ),
    ("li", Head::Li),
    ("la", Head::La),
];

// Names that begin with `s`.
const S_HEADS: [(&str, Head); 22] = [
    ("sb", Head::Operation(Operation::Store(StoreOp::Sb))),
    ("sh", Head::Operation(Operation::Store(StoreOp::Sh))),
    ("sw", Head::Operation(Operation::Store(StoreOp::Sw))),
    (
        "slti",
        Head::Operation(Operation::Immediate(ImmediateOp::Slti)),
    ),
    (
        "sltiu",
        Head::Operation(Operation::Immediate(ImmediateOp::Sltiu)),
    ),
    ("slli", Head::Operation(Operation::Shift(ShiftOp::Slli))),
    ("srli", Head::Operation(Operation::Shift(ShiftOp::Srli))),
    ("srai", Head::Operation(Operation::Shift(ShiftOp::Srai))),
    ("sub", Head::Operation(Operation::Register(RegisterOp::Sub))),
    ("sll", Head::Operation(Operation::Register(RegisterOp::Sll))),
    ("slt", Head::Operation(Operation::Register(RegisterOp::Slt))),
    (
        "sltu",
        Head::Operation(Operation::Register(RegisterOp::Sltu)),
    ),
    ("srl", Head::Operation(Operation::Register(RegisterOp::Srl))),
    ("sra", Head::Operation(Operation::Register(RegisterOp::Sra))),
    (
        "sc.w",
        Head::Operation(Operation::StoreConditional(Order::NONE)),
    ),
    (
        "sc.w.aq",
        Head::Operation(Operation::StoreConditional(Order::ACQUIRE)),
    ),
    (
        "sc.w.rl",
        Head::Operation(Operation::StoreConditional(Order::RELEASE)),
    ),
    (
        "sc.w.aqrl",
        Head::Operation(Operation::StoreConditional(Order::BOTH)),
    ),
    ("seqz", Head::Operation(Operation::Unary(Unary::IsZero))),
    ("snez", Head::Operation(Operation::Unary(Unary::IsNotZero))),
    ("sltz", Head::Operation(Operation::Unary(Unary::IsNegative))),
    ("sgtz", Head::Operation(Operation::Unary(Unary::IsPositive))),
];

// Names that begin with a dot.
const DOT_HEADS: [(&str, Head); 23] = [
    (".text", Head::Section(Section::Text)),
    (".data", Head::Section(Section::Data)),
    (".bss", Head::Section(Section::Zeros)),
    (".section", Head::NamedSection),
    (".word", Head::Words),
    (".half", Head::Halves),
    (".byte", Head::Bytes),
    (".zero", Head::Zero),
    (".space", Head::Zero),
    (".skip", Head::Zero),
    (".align", Head::Align),
    (".p2align", Head::Align),
    (".globl", Head::Global),
    (".global", Head::Global),
    (".ascii", Head::Ascii { ended: false }),
    (".asciz", Head::Ascii { ended: true }),
    (".string", Head::Ascii { ended: true }),
    (".file", Head::Skipped),
    (".option", Head::Skipped),
    (".attribute", Head::Skipped),
    (".type", Head::Skipped),
    (".size", Head::Skipped),
    (".ident", Head::Skipped),
];

// The other names.
const OTHER_HEADS: [(&str, Head); 19] = [
    ("jal", Head::Operation(Operation::Jal)),
    ("jalr", Head::Operation(Operation::Jalr)),
    (
        "xori",
        Head::Operation(Operation::Immediate(ImmediateOp::Xori)),
    ),
    (
        "ori",
        Head::Operation(Operation::Immediate(ImmediateOp::Ori)),
    ),
    ("xor", Head::Operation(Operation::Register(RegisterOp::Xor))),
    ("or", Head::Operation(Operation::Register(RegisterOp::Or))),
    ("fence", Head::Operation(Operation::Fence)),
    ("ecall", Head::Operation(Operation::Ecall)),
    ("ebreak", Head::Operation(Operation::Ebreak)),
    ("fence.tso", Head::Operation(Operation::FenceTso)),
    ("nop", Head::Operation(Operation::Nop)),
    ("ret", Head::Operation(Operation::Ret)),
    ("mv", Head::Operation(Operation::Unary(Unary::Move))),
    ("not", Head::Operation(Operation::Unary(Unary::Not))),
    ("neg", Head::Operation(Operation::Unary(Unary::Negate))),
    ("j", Head::Operation(Operation::Jump)),
    ("jr", Head::Operation(Operation::JumpRegister)),
    ("call", Head::Call),
    ("tail", Head::Tail),
];

/// The meaning of a name at the front of a statement, if it is known.
#[tactic(auto, unfolding(asm_statement::specs::Heads::head_of))]
pub fn head_of(name: &str) -> Option<Head>
    ensures { result ≡ head_of name.now }
{
    match first_of(name) {
        b'a' => find(&A_HEADS, name),
        b'b' => find(&B_HEADS, name),
        b'l' => find(&L_HEADS, name),
        b's' => find(&S_HEADS, name),
        b'.' => find(&DOT_HEADS, name),
        _ => find(&OTHER_HEADS, name),
    }
}
