//! The lines of a hart's end and its registers.
ghost use Rattle.std.specs.Prelude.{◌≡◌, ◌<◌, ◌++◌, OnOk, IfOk, string_bytes};
ghost use Rattle.std.specs.List.{flat_map};
ghost use Rattle.hart_step.specs.Hart.{hart_of, registers_of};
ghost use Rattle.debug_text.specs.Texts.{register_entry, registers_from, named_entry, register_lines, hart_text};

use crate::register_names::{Register, RegisterList};
use hart_step::Hart;
use isa_names::{RegisterName, Word};
use isa_table::Reg;
use outcome::EndLine;
use std::alloc::{AllocError, Allocator};

// Appends the line of a register.
fn push_register<A: Allocator>(
    text: &mut String<A>,
    hart: &Hart,
    number: u8,
) -> Result<(), AllocError>
    requires { number < 32 }
    ensures { OnOk result (string_bytes text.new
        ≡ string_bytes text.old ++ register_entry (registers_of hart.now.registers) number) }
{
    let name = RegisterName(Reg::new(number));
    let value = Word(hart.registers[number as usize]);
    writeln!(text, "{name} {value}")?;
    Ok(())
}

// Appends the line of a register that is named, if one is.
fn push_named<A: Allocator>(
    text: &mut String<A>,
    hart: &Hart,
    register: &Option<Register>,
) -> Result<(), AllocError>
    ensures { OnOk result (string_bytes text.new
        ≡ string_bytes text.old ++ named_entry (hart_of hart.now) register.now) }
{
    match register {
        Some(Register::General(register)) => push_register(text, hart, (*register).number()),
        Some(Register::Pc) => {
            let pc = Word(hart.pc);
            writeln!(text, "pc {pc}")
        }
        None => Ok(()),
    }
}

// Appends the lines of registers that are named.
fn push_registers<A: Allocator>(
    text: &mut String<A>,
    hart: &Hart,
    registers: &[Option<Register>],
) -> Result<(), AllocError>
    ensures { IfOk result (λ _. string_bytes text.new
        ≡ string_bytes text.old ++ flat_map (named_entry (hart_of hart.now)) registers.now) }
{
    'registers: for register in registers {
        push_named(text, hart, register)?;
    }
    Ok(())
}

/// The lines of registers of a hart, in a list's order.
pub fn register_lines<A: Allocator>(
    alloc: A,
    hart: &Hart,
    list: &RegisterList,
) -> Result<String<A>, AllocError>
    ensures { IfOk result (λ text. string_bytes text ≡ register_lines (hart_of hart.now) list.now) }
{
    let mut text = String::new(alloc);
    push_registers(&mut text, hart, &list.registers)?;
    Ok(text)
}

/// The line of a hart's end, and those of its registers in order.
#[tactic(auto, using(crate::proofs::TextLemmas::registers_more, crate::proofs::TextLemmas::registers_end), unfolding(crate::specs::Texts::hart_text))]
pub fn hart_text<A: Allocator>(
    alloc: A,
    number: usize,
    hart: &Hart,
) -> Result<String<A>, AllocError>
    ensures { IfOk result (λ text. string_bytes text ≡ hart_text number (hart_of hart.now)) }
{
    let mut text = String::new(alloc);
    let end = EndLine {
        number,
        hart: *hart,
    };
    writeln!(text, "{end}")?;
    'registers: for register in 0..32u8 {
        push_register(&mut text, hart, register)?;
    }
    Ok(text)
}
