//! Words of memory that outcomes also differ by.

ghost use Rattle.std.specs.Prelude.{◌≡◌, ◌++◌, IfOk, map, string_bytes};
ghost use Rattle.std.specs.List.{flat_map};
ghost use Rattle.machine.specs.State.{state};
ghost use Rattle.campaign_runs.specs.Members.{later_elements};
ghost use Rattle.campaign_runs.specs.Words.{object_of_word, seen_word, text_of_word, text_of_words};
ghost use Rattle.campaign_runs.specs.Words.{words_member, words_seen};

use crate::campaign::Report;
use cmd_form::Form;
use isa_names::Word;
use machine::Machine;
use mem_flat::FlatStore;
use property_judge::word_read;
use std::alloc::{AllocError, Allocator};

/// At most four words of memory by their addresses, multiples of 4, in the order in which a report
/// names them.
#[derive(Clone, Copy, Drop)]
pub struct Words {
    /// The first, if there is one.
    pub first: Option<u32>,
    /// The second, if there is one.
    pub second: Option<u32>,
    /// The third, if there is one.
    pub third: Option<u32>,
    /// The fourth, if there is one.
    pub fourth: Option<u32>,
}

/// A word of memory at the end of a run.
#[derive(Clone, Copy)]
pub(crate) struct SeenWord {
    /// Its address.
    pub(crate) address: u32,
    /// Its value; 0 if no load reads it.
    pub(crate) value: u32,
}

impl Words {
    ghost use Rattle.campaign_runs.specs.Words.{no_named_words};

    /// No word.
    pub const NONE: Words = Words {
        first: None,
        second: None,
        third: None,
        fourth: None,
    };

    // The words that a report of a run names, as the run left them. The only error is out of
    // memory.
    pub(crate) fn seen<A: Allocator>(
        self,
        alloc: A,
        report: Report,
        machine: &Machine<FlatStore<A>, A>,
    ) -> Result<Vec<SeenWord, A>, AllocError>
        ensures { IfOk result (λ seen.
            seen.items ≡ words_seen report self (state machine.now)) }
    {
        let mut seen = Vec::new(alloc);
        match report {
            Report::Lines | Report::Failures | Report::Summary | Report::Causes => {}
            Report::Outcomes => {
                push_seen(&mut seen, machine, self.first)?;
                push_seen(&mut seen, machine, self.second)?;
                push_seen(&mut seen, machine, self.third)?;
                push_seen(&mut seen, machine, self.fourth)?;
            }
        }
        Ok(seen)
    }
}

// Appends the word at an address, if there is one.
fn push_seen<A: Allocator>(
    seen: &mut Vec<SeenWord, A>,
    machine: &Machine<FlatStore<A>, A>,
    address: Option<u32>,
) -> Result<(), AllocError>
    ensures { IfOk result (λ _.
        seen.new.items ≡ seen.old.items ++ seen_word (state machine.now) address) }
{
    if let Some(address) = address {
        seen.push(SeenWord {
            address,
            value: word_read(machine.store(), address),
        })?;
    }
    Ok(())
}

// Appends what a line says of a word.
fn push_text<A: Allocator>(text: &mut String<A>, seen: SeenWord) -> Result<(), AllocError>
    ensures { IfOk result (λ _. string_bytes text.new
        ≡ string_bytes text.old ++ text_of_word seen) }
{
    let (address, value) = (Word(seen.address), Word(seen.value));
    write!(text, " {address}={value}")?;
    Ok(())
}

// Appends what a line says of words.
fn push_texts<A: Allocator>(text: &mut String<A>, seen: &[SeenWord]) -> Result<(), AllocError>
    ensures { IfOk result (λ _. string_bytes text.new
        ≡ string_bytes text.old ++ flat_map text_of_word seen.now) }
{
    'words: for each in seen {
        push_text(text, *each)?;
    }
    Ok(())
}

// Appends a word as an object.
fn push_object<A: Allocator>(text: &mut String<A>, seen: SeenWord) -> Result<(), AllocError>
    ensures { IfOk result (λ _. string_bytes text.new
        ≡ string_bytes text.old ++ object_of_word seen) }
{
    let (address, value) = (seen.address, seen.value);
    text.push_str("{\"address\":")?;
    write!(text, "{address},\"value\":{value}")?;
    text.push_str("}")?;
    Ok(())
}

// Appends words as objects behind a first, each behind a comma.
fn push_later<A: Allocator>(text: &mut String<A>, seen: &[SeenWord]) -> Result<(), AllocError>
    ensures { IfOk result (λ _. string_bytes text.new
        ≡ string_bytes text.old ++ later_elements (map object_of_word seen.now)) }
{
    'words: for each in seen {
        text.push(',')?;
        push_object(text, *each)?;
    }
    Ok(())
}

// Appends what an object of a report says of words.
fn push_member<A: Allocator>(text: &mut String<A>, seen: &[SeenWord]) -> Result<(), AllocError>
    ensures { IfOk result (λ _. string_bytes text.new
        ≡ string_bytes text.old ++ words_member seen.now) }
{
    let [first, rest @ ..] = seen else {
        return Ok(());
    };
    text.push_str(",\"words\":[")?;
    push_object(text, *first)?;
    push_later(text, rest)?;
    text.push_str("]")?;
    Ok(())
}

/// Appends what a report in this form says of words. The only error is out of memory.
pub(crate) fn push_words_seen<A: Allocator>(
    text: &mut String<A>,
    form: Form,
    seen: &[SeenWord],
) -> Result<(), AllocError>
    ensures { IfOk result (λ _. string_bytes text.new
        ≡ string_bytes text.old ++ text_of_words form seen.now) }
{
    match form {
        Form::Text => push_texts(text, seen)?,
        Form::Json => push_member(text, seen)?,
    }
    Ok(())
}
