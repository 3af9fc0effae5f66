//! The cell of a choice.

ghost use Rattle.std.specs.Prelude.{◌≡◌, ◌++◌, ◌∷◌, [], flat_map, OnOk};
ghost use Rattle.isa_names.specs.Digits.{word_text};
ghost use Rattle.trace_text.specs.declared.effect.Effect.TheVariants.{Accesses, Sets, Stores};
ghost use Rattle.trace_steps.specs.declared.failure.Failure.TheVariants.{Ended};
ghost use Rattle.trace_text.specs.Effects.{effects_of};
ghost use Rattle.trace_text.specs.Table.{cell_byte, table_cell, effect_text, effects_text, failure_text, ender_text, hex, instr_text, place_text, table_mark, more_effects};

use crate::effect::Effect;
use crate::effects::effects_of;
use crate::names::cause_name;
use crate::scalar::push_number;
use isa_disasm::line_of;
use isa_names::{Word, abi_name};
use isa_table::Instr;
use std::alloc::{AllocError, Allocator};
use trace_steps::{Ending, Explained, Failure, Written};

// Appends a number as eight digits.
fn push_hex<A: Allocator>(alloc: A, out: &mut Vec<u8, A>, number: u32) -> Result<(), AllocError>
    ensures { OnOk result (out.new.items ≡ out.old.items ++ hex number) }
{
    let word = Word(number);
    let text = format!(in alloc; "0x{word}")?;
    out.extend_from_slice(text.as_bytes())
}

// Appends that a register was written.
#[tactic(auto, unfolding(crate::specs::Table::effect_text))]
fn push_set<A: Allocator>(
    alloc: A,
    out: &mut Vec<u8, A>,
    written: Written,
) -> Result<(), AllocError>
    ensures { OnOk result (out.new.items ≡ out.old.items ++ effect_text (Sets written)) }
{
    out.extend_from_slice(abi_name(written.register).as_bytes())?;
    out.extend_from_slice(b" = ")?;
    push_hex(alloc, out, written.value)
}

// Appends where bytes were accessed.
#[tactic(auto, unfolding(crate::specs::Table::effect_text))]
fn push_place<A: Allocator + Copy>(
    alloc: A,
    out: &mut Vec<u8, A>,
    address: u32,
) -> Result<(), AllocError>
    ensures { OnOk result (out.new.items ≡ out.old.items ++ effect_text (Accesses address)) }
{
    out.push(b'[')?;
    push_hex(alloc, out, address)?;
    out.push(b']')?;
    Ok(())
}

// Appends that bytes were stored.
#[tactic(auto, unfolding(crate::specs::Table::effect_text))]
fn push_store<A: Allocator + Copy>(
    alloc: A,
    out: &mut Vec<u8, A>,
    address: u32,
    before: u32,
    after: u32,
) -> Result<(), AllocError>
    ensures { OnOk result (out.new.items ≡ out.old.items ++ effect_text (Stores address before after)) }
{
    out.push(b'[')?;
    push_hex(alloc, out, address)?;
    out.extend_from_slice(b"]: ")?;
    push_hex(alloc, out, before)?;
    out.extend_from_slice(b" \xe2\x86\x92 ")?;
    push_hex(alloc, out, after)
}

// Appends a hart.
#[tactic(auto, unfolding(crate::specs::Table::ender_text))]
fn push_hart<A: Allocator>(out: &mut Vec<u8, A>, hart: u32) -> Result<(), AllocError>
    ensures { OnOk result (out.new.items ≡ out.old.items ++ ender_text hart) }
{
    out.extend_from_slice(b"hart ")?;
    push_number(out, u64::from(hart))
}

// Appends in which choice.
#[tactic(auto, unfolding(crate::specs::Table::place_text))]
fn push_at_choice<A: Allocator>(out: &mut Vec<u8, A>, choice: u64) -> Result<(), AllocError>
    ensures { OnOk result (out.new.items ≡ out.old.items ++ place_text choice) }
{
    out.extend_from_slice(b" at choice ")?;
    push_number(out, choice)
}

// Appends which step ended a reservation.
#[tactic(auto, unfolding(crate::specs::Table::failure_text))]
fn push_ending<A: Allocator>(out: &mut Vec<u8, A>, step: Ending) -> Result<(), AllocError>
    ensures { OnOk result (out.new.items ≡ out.old.items ++ failure_text (Ended step)) }
{
    out.extend_from_slice(b"ended by ")?;
    push_hart(out, step.hart)?;
    push_at_choice(out, step.choice)
}

// Appends why a store-conditional failed.
#[tactic(auto, unfolding(crate::specs::Table::failure_text))]
fn push_failure<A: Allocator + Copy>(
    alloc: A,
    out: &mut Vec<u8, A>,
    why: Failure,
) -> Result<(), AllocError>
    ensures { OnOk result (out.new.items ≡ out.old.items ++ failure_text why) }
{
    match why {
        Failure::NotReserved => out.extend_from_slice(b"no reservation"),
        Failure::Ended(step) => push_ending(out, step),
        Failure::OtherWord(word) => {
            out.extend_from_slice(b"reserved ")?;
            push_hex(alloc, out, word)
        }
        Failure::Refused => out.extend_from_slice(b"refused"),
    }
}

// Appends a thing that a choice did.
#[tactic(auto, unfolding(crate::specs::Table::effect_text))]
fn push_effect<A: Allocator + Copy>(
    alloc: A,
    out: &mut Vec<u8, A>,
    effect: Effect,
) -> Result<(), AllocError>
    ensures { OnOk result (out.new.items ≡ out.old.items ++ effect_text effect) }
{
    match effect {
        Effect::Succeeds => out.extend_from_slice(b"succeeds"),
        Effect::Fails(why) => {
            out.extend_from_slice(b"fails: ")?;
            push_failure(alloc, out, why)
        }
        Effect::Sets(written) => push_set(alloc, out, written),
        Effect::Stores {
            address,
            before,
            after,
        } => push_store(alloc, out, address, before, after),
        Effect::Accesses(address) => push_place(alloc, out, address),
        Effect::Exits(status) => {
            out.extend_from_slice(b"exits with ")?;
            push_hex(alloc, out, status)
        }
        Effect::Faults(cause) => {
            out.extend_from_slice(b"faults: ")?;
            out.extend_from_slice(cause_name(cause).as_bytes())
        }
        Effect::Rests => out.extend_from_slice(b"has stopped"),
    }
}

// Appends things behind a first.
#[tactic(auto, unfolding(crate::specs::Table::more_effects))]
fn push_more_effects<A: Allocator + Copy>(
    alloc: A,
    out: &mut Vec<u8, A>,
    effects: &[Effect],
) -> Result<(), AllocError>
    ensures { OnOk result (out.new.items ≡ out.old.items ++ more_effects effects.now) }
{
    'effects: for effect in effects {
        out.extend_from_slice(b", ")?;
        push_effect(alloc, out, *effect)?;
    }
    Ok(())
}

// Appends the things that a choice did.
#[tactic(auto, unfolding(crate::specs::Table::effects_text))]
fn push_effects<A: Allocator + Copy>(
    alloc: A,
    out: &mut Vec<u8, A>,
    effects: &[Effect],
) -> Result<(), AllocError>
    ensures { OnOk result (out.new.items ≡ out.old.items ++ effects_text effects.now) }
{
    let [first, rest @ ..] = effects else {
        return Ok(());
    };
    out.push(b' ')?;
    push_effect(alloc, out, *first)?;
    push_more_effects(alloc, out, rest)
}

// Appends a byte of a text in a cell.
#[tactic(auto, unfolding(crate::specs::Table::cell_byte))]
fn push_byte<A: Allocator>(out: &mut Vec<u8, A>, byte: u8) -> Result<(), AllocError>
    ensures { OnOk result (out.new.items ≡ out.old.items ++ cell_byte byte) }
{
    if byte == b'|' {
        return out.extend_from_slice(b"\\|");
    }
    out.push(if byte < 32 { b'?' } else { byte })?;
    Ok(())
}

/// Appends a text in a cell.
pub(crate) fn push_text<A: Allocator>(out: &mut Vec<u8, A>, text: &[u8]) -> Result<(), AllocError>
    ensures { OnOk result (out.new.items ≡ out.old.items ++ flat_map cell_byte text.now) }
{
    'bytes: for byte in text {
        push_byte(out, *byte)?;
    }
    Ok(())
}

// Appends the instruction.
#[tactic(auto, unfolding(crate::specs::Table::instr_text))]
fn push_instr<A: Allocator>(
    alloc: A,
    out: &mut Vec<u8, A>,
    pc: u32,
    word: Option<u32>,
    instr: Option<Instr>,
) -> Result<(), AllocError>
    ensures { OnOk result (out.new.items ≡ out.old.items ++ instr_text pc word instr) }
{
    let (Some(word), Some(_)) = (word, instr) else {
        return Ok(());
    };
    let text = line_of(alloc, pc, word)?;
    out.extend_from_slice(b" `")?;
    push_text(out, text.as_bytes())?;
    out.push(b'`')?;
    Ok(())
}

// Appends that the choice has the mark, where it has it.
#[tactic(auto, unfolding(crate::specs::Table::table_mark))]
fn push_mark<A: Allocator>(out: &mut Vec<u8, A>, refuse: bool) -> Result<(), AllocError>
    ensures { OnOk result (out.new.items ≡ out.old.items ++ table_mark refuse) }
{
    if refuse {
        return out.extend_from_slice(b" (refused)");
    }
    Ok(())
}

/// Appends what stands in the column of a choice's hart.
#[tactic(auto, unfolding(crate::specs::Table::table_cell))]
pub(crate) fn push_cell<A: Allocator + Copy>(
    alloc: A,
    out: &mut Vec<u8, A>,
    explained: &Explained,
) -> Result<(), AllocError>
    ensures { OnOk result (out.new.items ≡ out.old.items ++ table_cell explained.now) }
{
    let effects = effects_of(alloc, explained)?;
    let told = &explained.told;
    push_instr(alloc, out, told.pc, told.word, told.instr)?;
    push_effects(alloc, out, &effects)?;
    push_mark(out, told.choice.refuse)
}
