//! Explains the faults of harts.

use crate::places::{push_instruction, push_standing, rwx, segment_at};
use crate::sentences::{
    ACROSS, ALL_USED_UP, AT_ZERO, BREAK, CALL, COMPRESSED, MISALIGNED, NO_INSTRUCTION, NO_STACK,
    NOT_EXECUTABLE, NOT_READABLE, NOT_WRITABLE, NOWHERE_TO_FETCH, ODD_JUMP, PAST_LAST, STILL_RUNS,
    UNMAPPED, USED_UP, ZEROS,
};
use elf_read::Symbol;
use hart_step::{Access, Cause, Hart, HartState, access_by};
use hint_text::{Form, Sentence, Value, push_sentence};
use image::{Image, Rights, Segment};
use isa_decode::decode;
use isa_names::Word;
use machine::Machine;
use mem_flat::FlatStore;
use mem_store::Store;
use std::alloc::{AllocError, Allocator};

// The greatest number of explained harts: the others mostly have the same fault.
const MOST_HARTS: usize = 4;

// The indices of sp (x2) and a7 (x17).
const SP: usize = 2;

const A7: usize = 17;

// A hart's fault and its circumstances.
#[derive(Clone, Copy)]
struct Met<'a> {
    hart: &'a Hart,
    cause: Cause,
    // The word at pc, if it is executable.
    word: Option<u32>,
    // The data access of the instruction, if it has one.
    access: Option<Access>,
}

/// Which ends of harts are explained.
#[derive(Clone, Copy, PartialEq, Eq)]
pub enum EndsTold {
    /// Faults.
    Faults,
    /// Faults, and that a hart still runs after the last choice.
    FaultsAndRunning,
    /// Faults, and that a hart still runs with its budget used up.
    FaultsAndUsedUp,
    /// Faults, and that a hart still runs with its budget or the total of all harts used up.
    FaultsAndAllUsedUp,
}

/// Explains how a machine's harts ended, as whole lines: the place of the hart, its instruction, and
/// a sentence on it; of a fault also the address that it used and its segment. Of more than four such
/// harts the first four are explained. Empty if there is none.
pub fn harts_advice<A: Allocator + Copy>(
    alloc: A,
    image: &Image<A>,
    symbols: &[Symbol<A>],
    machine: &Machine<FlatStore<A>, A>,
    told: EndsTold,
) -> Result<String<A>, AllocError> {
    let mut text = String::new(alloc);
    let mut count = 0usize;
    'harts: for (number, hart) in machine.ends().iter().enumerate() {
        if is_told(hart, told) && count < MOST_HARTS {
            count += 1;
            let word = machine.store().fetch(hart.pc);
            push_end(
                &mut text,
                number,
                image.segments(),
                symbols,
                hart,
                word,
                told,
            )?;
        }
    }
    Ok(text)
}

// Whether the end of a hart is explained.
fn is_told(hart: &Hart, told: EndsTold) -> bool {
    match hart.state {
        HartState::Faulted(_) => true,
        HartState::Running => told != EndsTold::Faults,
        HartState::Exited(_) => false,
    }
}

// Adds the lines of a hart with this word at its place.
fn push_end<A: Allocator>(
    text: &mut String<A>,
    number: usize,
    segments: &[Segment<A>],
    symbols: &[Symbol<A>],
    hart: &Hart,
    word: Option<u32>,
    told: EndsTold,
) -> Result<(), AllocError> {
    match hart.state {
        HartState::Faulted(cause) => {
            push_hart(text, number, segments, symbols, &met_by(hart, cause, word))
        }
        _ => push_running(text, number, symbols, hart, word, running_form(told)),
    }
}

// What is said of a hart that still runs.
fn running_form(told: EndsTold) -> Form {
    match told {
        EndsTold::FaultsAndUsedUp => USED_UP,
        EndsTold::FaultsAndAllUsedUp => ALL_USED_UP,
        EndsTold::Faults | EndsTold::FaultsAndRunning => STILL_RUNS,
    }
}

// Adds the lines of a hart that still runs.
fn push_running<A: Allocator>(
    text: &mut String<A>,
    number: usize,
    symbols: &[Symbol<A>],
    hart: &Hart,
    word: Option<u32>,
    form: Form,
) -> Result<(), AllocError> {
    push_standing(text, symbols, number, hart.pc)?;
    if let Some(word) = word {
        push_instruction(text, hart.pc, word)?;
    }
    text.push_str("\n    ")?;
    push_sentence(text, &Sentence::of(form, ""))?;
    text.push('\n')
}

// The circumstances of a hart's fault at this word.
fn met_by(hart: &Hart, cause: Cause, word: Option<u32>) -> Met<'_> {
    let access = access_of(hart, word);
    Met {
        hart,
        cause,
        word,
        access,
    }
}

// The data access of a word's instruction, if it has one.
fn access_of(hart: &Hart, word: Option<u32>) -> Option<Access> {
    let instr = decode(word?)?;
    access_by(hart, instr)
}

// Adds the lines of a hart.
fn push_hart<A: Allocator>(
    text: &mut String<A>,
    number: usize,
    segments: &[Segment<A>],
    symbols: &[Symbol<A>],
    met: &Met<'_>,
) -> Result<(), AllocError> {
    push_standing(text, symbols, number, met.hart.pc)?;
    if let Some(word) = met.word {
        push_instruction(text, met.hart.pc, word)?;
    }
    push_access(text, segments, met.access)?;
    text.push_str("\n    ")?;
    push_sentence(text, &meaning_of(segments, met))?;
    text.push('\n')
}

// Appends the address that an access uses, and its segment.
fn push_access<A: Allocator>(
    text: &mut String<A>,
    segments: &[Segment<A>],
    access: Option<Access>,
) -> Result<(), AllocError> {
    let Some(access) = access else {
        return Ok(());
    };
    let shown = Word(access.address);
    match segment_at(segments, access.address) {
        Some(segment) => {
            let (base, rights) = (Word(segment.base), rwx(segment.rights));
            write!(text, ", which uses {shown}, in the segment {base} {rights}")
        }
        None => write!(text, ", which uses {shown}, in no segment"),
    }
}

// A sentence with a number.
fn numbered(form: Form, number: u32) -> Sentence<'static> {
    Sentence {
        form,
        values: [
            Value::Number(i64::from(number)),
            Value::Text(""),
            Value::Text(""),
        ],
    }
}

// What a fault means.
fn meaning_of<A: Allocator>(segments: &[Segment<A>], met: &Met<'_>) -> Sentence<'static> {
    let form = match met.cause {
        Cause::FetchAccess => fetch_form(segments, met.hart.pc),
        Cause::Illegal => word_form(met.word),
        Cause::LoadMisaligned | Cause::StoreMisaligned => {
            return numbered(MISALIGNED, size_of_access(met.access));
        }
        Cause::LoadAccess => access_form(segments, met, Rights::READ),
        Cause::StoreAccess => access_form(segments, met, Rights::WRITE),
        Cause::JumpMisaligned => ODD_JUMP,
        Cause::BadCall => return numbered(CALL, met.hart.registers[A7]),
        Cause::Break => BREAK,
    };
    Sentence::of(form, "")
}

// The bytes of an access if there is one, else those of a word.
fn size_of_access(access: Option<Access>) -> u32 {
    match access {
        Some(access) => access.size,
        None => 4,
    }
}

// Whether an address is executable.
fn is_code<A: Allocator>(segments: &[Segment<A>], address: u32) -> bool {
    match segment_at(segments, address) {
        Some(segment) => segment.rights.grants(Rights::EXECUTE),
        None => false,
    }
}

// Why no instruction can be fetched from an address.
fn fetch_form<A: Allocator>(segments: &[Segment<A>], pc: u32) -> Form {
    if pc > 0 && is_code(segments, pc - 1) {
        PAST_LAST
    } else if segment_at(segments, pc).is_some() {
        NOT_EXECUTABLE
    } else if pc == 0 {
        AT_ZERO
    } else {
        NOWHERE_TO_FETCH
    }
}

// What a word that isn't an instruction is.
fn word_form(word: Option<u32>) -> Form {
    match word {
        Some(0) => ZEROS,
        Some(word) if word % 4 != 3 => COMPRESSED,
        _ => NO_INSTRUCTION,
    }
}

// Whether an address is one that sp gives if no stack was set: up to 64 KiB below 0, or above.
fn is_near_zero(address: u32) -> bool {
    address >= 0xffff_0000 || address < 0x0000_1000
}

// Why a data access faults.
fn access_form<A: Allocator>(segments: &[Segment<A>], met: &Met<'_>, wanted: Rights) -> Form {
    let Some(access) = met.access else {
        return UNMAPPED;
    };
    match segment_at(segments, access.address) {
        Some(segment) => rights_form(segment.rights, wanted),
        None => nowhere_form(met, access.address),
    }
}

// Why an access to a segment with these rights faults.
fn rights_form(rights: Rights, wanted: Rights) -> Form {
    if rights.grants(wanted) {
        ACROSS
    } else if wanted == Rights::WRITE {
        NOT_WRITABLE
    } else {
        NOT_READABLE
    }
}

// The sentence for an access to an address in no segment.
fn nowhere_form(met: &Met<'_>, address: u32) -> Form {
    if is_near_zero(address) && is_near_zero(met.hart.registers[SP]) && uses_sp(met.word) {
        NO_STACK
    } else {
        UNMAPPED
    }
}

// Whether an instruction's address is relative to sp.
fn uses_sp(word: Option<u32>) -> bool {
    match word {
        Some(word) => word / 0x8000 % 32 == SP as u32,
        None => false,
    }
}
