//! Registers of the hart that is read.
ghost use Rattle.std.specs.Prelude.{◌≡◌, ◌++◌, slice_get, OnOk, OnErr, Some};
ghost use Rattle.hart_step.specs.Hart.{hart_of};
ghost use Rattle.gdb_replies.specs.Fronts.{BeginsWith};
ghost use Rattle.gdb_session.specs.Answers.{all_registers_text, hart_register_text, hart_registers_text, numbered_register_text};
ghost use Rattle.gdb_session.specs.Harts.{hart_read};
ghost use Rattle.gdb_session.specs.Talk.{harts_seen, talk_of};

use crate::fixed::push_fixed;
use crate::talk::Talk;
use gdb_replies::{FixedReply, push_registers, push_word};
use hart_step::Hart;
use std::alloc::{AllocError, Allocator};

// The number of pc as GDB numbers registers; x0 to x31 come before it.
const PC: u32 = 32;

// Appends all registers of a hart.
fn push_all<A: Allocator>(out: &mut Vec<u8, A>, hart: &Hart) -> Result<(), AllocError>
    ensures ok { OnOk result (out.new.items
        ≡ out.old.items ++ all_registers_text (hart_of hart.now)) }
    ensures kept { OnErr result (BeginsWith out.new.items out.old.items) }
{
    push_registers(out, &hart.registers, hart.pc)?;
    Ok(())
}

/// Appends all registers of the hart that is read.
pub fn push_hart_registers<A: Allocator + Copy>(
    talk: &Talk<A>,
    out: &mut Vec<u8, A>,
) -> Result<(), AllocError>
    ensures ok { OnOk result (out.new.items ≡ out.old.items ++ hart_registers_text
        (slice_get (harts_seen (talk_of talk.now)) (hart_read (talk_of talk.now)))) }
    ensures kept { OnErr result (BeginsWith out.new.items out.old.items) }
{
    let machine = talk.debugger.machine();
    let number = talk.hart_read() as usize;
    if number >= machine.harts() {
        return push_fixed(out, FixedReply::BadOperand);
    }
    push_all(out, machine.hart(number))
}

// Appends a register of a hart by its number.
fn push_numbered<A: Allocator>(
    out: &mut Vec<u8, A>,
    hart: &Hart,
    register: u32,
) -> Result<(), AllocError>
    ensures ok { OnOk result (out.new.items
        ≡ out.old.items ++ numbered_register_text register (hart_of hart.now)) }
    ensures kept { OnErr result (BeginsWith out.new.items out.old.items) }
{
    if register < PC {
        return push_word(out, hart.registers[register as usize]);
    }
    if register == PC {
        return push_word(out, hart.pc);
    }
    push_fixed(out, FixedReply::BadOperand)
}

/// Appends one register of the hart that is read.
pub fn push_hart_register<A: Allocator + Copy>(
    talk: &Talk<A>,
    out: &mut Vec<u8, A>,
    register: u32,
) -> Result<(), AllocError>
    ensures ok { OnOk result (out.new.items ≡ out.old.items ++ hart_register_text register
        (slice_get (harts_seen (talk_of talk.now)) (hart_read (talk_of talk.now)))) }
    ensures kept { OnErr result (BeginsWith out.new.items out.old.items) }
{
    let machine = talk.debugger.machine();
    let number = talk.hart_read() as usize;
    if number >= machine.harts() {
        return push_fixed(out, FixedReply::BadOperand);
    }
    push_numbered(out, machine.hart(number), register)
}
