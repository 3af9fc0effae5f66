//! The data access of an instruction.
ghost use Rattle.std.specs.Prelude.{◌≡◌, ◌+◌};
ghost use Rattle.hart_step.specs.Hart.{registers_of};
ghost use Rattle.hart_step.specs.Values.{wrap, load_size, store_size};
ghost use Rattle.hart_step.specs.Locality.{access_by};

use crate::hart::Hart;
use crate::registers::get;
use isa_table::fields::{Immediate12, Reg};
use isa_table::instr::Instr;
use isa_table::mnemonic::{LoadOp, StoreOp};

/// The kind of an instruction's access.
#[derive(Clone, Copy, PartialEq, Eq)]
pub enum AccessKind {
    /// A load reads them.
    Load,
    /// A store writes them.
    Store,
    /// LR reads them and reserves their word.
    LoadReserved,
    /// SC writes them if it succeeds.
    StoreConditional,
    /// An AMO reads and writes them.
    Amo,
}

/// The bytes of memory that an instruction accesses together.
#[derive(Clone, Copy, PartialEq, Eq)]
pub struct Access {
    /// The kind of the access.
    pub kind: AccessKind,
    /// The first address.
    pub address: u32,
    /// The size in bytes: 1, 2 or 4.
    pub size: u32,
}

/// The address of a load or a store, rs1 + immediate. Unprivileged ISA, "Load and Store
/// Instructions".
pub fn effective_address(hart: &Hart, rs1: Reg, imm: Immediate12) -> u32
    ensures { result ≡ wrap (registers_of hart.now.registers rs1 + imm) }
{
    get(hart, rs1).wrapping_add(imm.word())
}

// The number of bytes that a load reads.
fn load_size(op: LoadOp) -> u32
    ensures { result ≡ load_size op }
{
    match op {
        LoadOp::Lb | LoadOp::Lbu => 1,
        LoadOp::Lh | LoadOp::Lhu => 2,
        LoadOp::Lw => 4,
    }
}

// The number of bytes that a store writes.
fn store_size(op: StoreOp) -> u32
    ensures { result ≡ store_size op }
{
    match op {
        StoreOp::Sb => 1,
        StoreOp::Sh => 2,
        StoreOp::Sw => 4,
    }
}

/// The one data access of an instruction of a hart, if it has one; also for an access that faults,
/// and for a store-conditional that fails.
pub fn access_by(hart: &Hart, instr: Instr) -> Option<Access>
    ensures { result ≡ access_by instr (registers_of hart.now.registers) }
{
    let (kind, address, size) = match instr {
        Instr::Load { op, rs1, imm, .. } => {
            (
                AccessKind::Load,
                effective_address(hart, rs1, imm),
                load_size(op),
            )
        }
        Instr::Store { op, rs1, imm, .. } => {
            (
                AccessKind::Store,
                effective_address(hart, rs1, imm),
                store_size(op),
            )
        }
        Instr::LoadReserved { rs1, .. } => (AccessKind::LoadReserved, get(hart, rs1), 4),
        Instr::StoreConditional { rs1, .. } => (AccessKind::StoreConditional, get(hart, rs1), 4),
        Instr::Amo { rs1, .. } => (AccessKind::Amo, get(hart, rs1), 4),
        _ => return None,
    };
    Some(Access {
        kind,
        address,
        size,
    })
}
