//! The bytes of statements.
ghost use Rattle.std.specs.Prelude.{◌≡◌, ◌<◌, ◌+◌, ◌^◌, ◌++◌, OnOk, replicate};
ghost use Rattle.std.specs.List.{list_all};
ghost use Rattle.asm_statement.specs.Statement.{directive_value};
ghost use Rattle.asm_assemble.specs.Program.{symbol_list};
ghost use Rattle.asm_assemble.specs.Numbers.{is_in_range};
ghost use Rattle.asm_assemble.specs.Valuing.{instr_bytes, pair_bytes, fits_word, word_list, half_list, byte_list, nops, padding, directive_bytes, valued_bytes, Pushes, appended};
ghost use Rattle.asm_assemble.specs.declared.push.PushFault.TheVariants.{Kind, Memory};

use crate::cursor::align_size;
use crate::instruction::{Pair, instr_of, pair_of};
use crate::number::as_word;
use crate::operand::value_of;
use crate::program::Symbols;
use asm_statement::{Body, Directive, FaultKind, Section, Statement, Value};
use isa_encode::encode;
use isa_table::Instr;
use std::alloc::{AllocError, Allocator};

/// The reason why a statement gives no bytes.
#[derive(Clone, Copy)]
pub enum PushFault {
    /// An operand has no value, or one that is out of range.
    Kind(FaultKind),
    /// Out of memory.
    Memory,
}

impl From<AllocError> for PushFault {
    ghost from_gives = { λ _ fault. fault ≡ Memory };

    fn from(_refused: AllocError) -> PushFault {
        PushFault::Memory
    }
}

impl From<FaultKind> for PushFault {
    ghost from_gives = { λ kind fault. fault ≡ Kind kind };

    fn from(kind: FaultKind) -> PushFault {
        PushFault::Kind(kind)
    }
}

// Appends the bytes of an instruction.
#[tactic(auto, unfolding(crate::specs::Valuing::instr_bytes))]
fn push_instr<A: Allocator>(out: &mut Vec<u8, A>, instr: &Instr) -> Result<(), AllocError>
    ensures { OnOk result (out.new.items ≡ out.old.items ++ instr_bytes instr.now) }
{
    out.extend_from_slice(&encode(instr).to_le_bytes())
}

// Appends the bytes of one or two instructions.
#[tactic(auto, unfolding(crate::specs::Valuing::pair_bytes))]
fn push_pair<A: Allocator>(out: &mut Vec<u8, A>, pair: &Pair) -> Result<(), AllocError>
    ensures { OnOk result (out.new.items
        ≡ out.old.items ++ pair_bytes pair.now.first pair.now.second) }
{
    push_instr(out, &pair.first)?;
    match &pair.second {
        Some(second) => push_instr(out, second),
        None => Ok(()),
    }
}

// Appends zero bytes.
fn push_zeros<A: Allocator>(out: &mut Vec<u8, A>, count: u64) -> Result<(), AllocError>
    ensures { OnOk result (out.new.items ≡ out.old.items ++ replicate count 0) }
{
    'zeros: for _ in 0..count {
        out.push(0)?;
    }
    Ok(())
}

// Appends NOPs.
#[tactic(auto, unfolding(crate::specs::Valuing::nops))]
fn push_nops<A: Allocator>(out: &mut Vec<u8, A>, count: u64) -> Result<(), AllocError>
    ensures { OnOk result (out.new.items ≡ out.old.items ++ nops count) }
{
    'nops: for _ in 0..count {
        out.extend_from_slice(&[0x13, 0, 0, 0])?;
    }
    Ok(())
}

// Appends padding in a section.
#[tactic(auto, unfolding(crate::specs::Valuing::padding))]
fn push_padding<A: Allocator>(
    out: &mut Vec<u8, A>,
    section: Section,
    count: u64,
) -> Result<(), AllocError>
    ensures { OnOk result (out.new.items ≡ out.old.items ++ padding section count) }
{
    match section {
        Section::Text => {
            push_zeros(out, count % 4)?;
            push_nops(out, count / 4)
        }
        Section::Data | Section::Zeros => push_zeros(out, count),
    }
}

// Whether a value fits a word, if it is a number.
#[tactic(auto, unfolding(crate::specs::Valuing::fits_word, crate::specs::Numbers::is_in_range))]
fn fits_word(value: &Value<'_>) -> bool
    ensures { result ≡ fits_word value.now }
{
    match value {
        Value::Number(number) => -0x8000_0000 <= *number && *number < 0x1_0000_0000,
        Value::Symbol { .. } => true,
    }
}

// Whether all numbers fit words.
fn fit_words(values: &[Value<'_>]) -> bool
    ensures { result ≡ list_all fits_word values.now }
{
    'values: for value in values {
        if !fits_word(value) {
            return false;
        }
    }
    true
}

// Whether a number fits a halfword.
#[tactic(auto, unfolding(crate::specs::Numbers::is_in_range))]
fn fits_half(number: i64) -> bool
    ensures { result ≡ is_in_range (2 ^ 15) (2 ^ 16) number }
{
    -0x8000 <= number && number < 0x1_0000
}

// Whether all numbers fit halfwords.
fn fit_halves(numbers: &[i64]) -> bool
    ensures { result ≡ list_all (is_in_range (2 ^ 15) (2 ^ 16)) numbers.now }
{
    'numbers: for number in numbers {
        if !fits_half(*number) {
            return false;
        }
    }
    true
}

// Whether a number fits a byte.
#[tactic(auto, unfolding(crate::specs::Numbers::is_in_range))]
fn fits_byte(number: i64) -> bool
    ensures { result ≡ is_in_range (2 ^ 7) (2 ^ 8) number }
{
    -0x80 <= number && number < 0x100
}

// Whether all numbers fit bytes.
fn fit_bytes(numbers: &[i64]) -> bool
    ensures { result ≡ list_all (is_in_range (2 ^ 7) (2 ^ 8)) numbers.now }
{
    'numbers: for number in numbers {
        if !fits_byte(*number) {
            return false;
        }
    }
    true
}

// Appends the words of values.
#[tactic(auto, unfolding(crate::specs::Valuing::word_list, crate::specs::Valuing::appended, crate::specs::Valuing::Pushes))]
fn push_words<A: Allocator>(
    out: &mut Vec<u8, A>,
    symbols: &Symbols<A>,
    values: &[Value<'_>],
) -> Result<(), PushFault>
    ensures { Pushes result out.new.items
        (appended out.old.items (word_list (symbol_list symbols.now.entries) values.now)) }
{
    'values: for value in values {
        let word = match value_of(symbols, value) {
            Ok(word) => word,
            Err(kind) => return Err(PushFault::Kind(kind)),
        };
        out.extend_from_slice(&word.to_le_bytes())?;
    }
    Ok(())
}

// Appends the halfwords of numbers.
#[tactic(auto, unfolding(crate::specs::Valuing::half_list))]
fn push_halves<A: Allocator>(out: &mut Vec<u8, A>, numbers: &[i64]) -> Result<(), AllocError>
    ensures { OnOk result (out.new.items ≡ out.old.items ++ half_list numbers.now) }
{
    'numbers: for number in numbers {
        let half = (as_word(*number) % 0x1_0000) as u16;
        out.extend_from_slice(&half.to_le_bytes())?;
    }
    Ok(())
}

// Appends the bytes of numbers.
#[tactic(auto, unfolding(crate::specs::Valuing::byte_list))]
fn push_bytes<A: Allocator>(out: &mut Vec<u8, A>, numbers: &[i64]) -> Result<(), AllocError>
    ensures { OnOk result (out.new.items ≡ out.old.items ++ byte_list numbers.now) }
{
    'numbers: for number in numbers {
        out.push((as_word(*number) % 0x100) as u8)?;
    }
    Ok(())
}

// Appends the bytes of a directive at an address in a section.
#[tactic(auto, unfolding(crate::specs::Valuing::directive_bytes, crate::specs::Valuing::where_fits, crate::specs::Valuing::appended, crate::specs::Valuing::Pushes, crate::specs::Cursors::directive_size))]
fn push_directive<A: Allocator>(
    out: &mut Vec<u8, A>,
    symbols: &Symbols<A>,
    section: Section,
    at: u128,
    directive: &Directive<'_, A>,
) -> Result<(), PushFault>
    requires { at < 2 ^ 127 + 2 ^ 126 }
    ensures { Pushes result out.new.items (appended out.old.items (directive_bytes
        (symbol_list symbols.now.entries) section at (directive_value directive.now))) }
{
    match directive {
        Directive::Words(values) => {
            if !fit_words(values.as_slice()) {
                return Err(PushFault::Kind(FaultKind::Range));
            }
            return push_words(out, symbols, values.as_slice());
        }
        Directive::Halves(numbers) => {
            if !fit_halves(numbers.as_slice()) {
                return Err(PushFault::Kind(FaultKind::Range));
            }
            push_halves(out, numbers.as_slice())?;
        }
        Directive::Bytes(numbers) => {
            if !fit_bytes(numbers.as_slice()) {
                return Err(PushFault::Kind(FaultKind::Range));
            }
            push_bytes(out, numbers.as_slice())?;
        }
        Directive::Ascii(bytes) => out.extend_from_slice(bytes.as_slice())?,
        Directive::Zero(count) => push_zeros(out, u64::from(*count))?,
        Directive::Align(n) => push_padding(out, section, align_size(at, *n) as u64)?,
        Directive::Section(_) | Directive::Global(_) => {}
    }
    Ok(())
}

/// Appends the bytes of a statement at an address in a section; `local` is the address of its local
/// reference.
#[tactic(auto, unfolding(crate::specs::Valuing::valued_bytes, crate::specs::Valuing::appended, crate::specs::Valuing::Pushes))]
pub fn push_statement<A: Allocator>(
    out: &mut Vec<u8, A>,
    symbols: &Symbols<A>,
    local: Option<u32>,
    section: Section,
    at: u128,
    statement: &Statement<'_, A>,
) -> Result<(), PushFault>
    requires { at < 2 ^ 127 + 2 ^ 126 }
    ensures { Pushes result out.new.items (appended out.old.items (valued_bytes
        (symbol_list symbols.now.entries) local section at statement.now.body)) }
{
    match &statement.body {
        Body::Label(_) | Body::LocalLabel(_) => Ok(()),
        Body::Instruction(instruction) => match instr_of(symbols, local, at, instruction) {
            Ok(instr) => Ok(push_instr(out, &instr)?),
            Err(kind) => Err(PushFault::Kind(kind)),
        },
        Body::Pseudo(pseudo) => match pair_of(symbols, at, pseudo) {
            Ok(pair) => Ok(push_pair(out, &pair)?),
            Err(kind) => Err(PushFault::Kind(kind)),
        },
        Body::Directive(directive) => push_directive(out, symbols, section, at, directive),
    }
}
