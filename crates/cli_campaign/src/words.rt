//! The words of memory by which a campaign's outcomes also differ.

use crate::properties::{property_said, symbols_of};
use byte_io::Status;
use cli_orders::CampaignOrder;
use cli_report::bad_line;
use cmd_campaign::Words;
use elf_read::Symbol;
use property_text::word_meant;
use std::alloc::Global;

// The greatest number of words.
const MOST_WORDS: usize = 4;

/// Refuses `--word` beside options that it doesn't go with, and with more words than are told.
pub(crate) fn refuse_word<R: Print + Eprint>(rt: &R, order: &CampaignOrder) -> Result<(), Status> {
    let Some(text) = order.word else {
        return Ok(());
    };
    if order.preemptions.is_some() {
        return Err(bad_line(
            rt,
            "--word doesn't go with --preemptions, whose outcomes differ by a0 and a1 alone",
        ));
    }
    if !order.summary || !order.outcomes {
        return Err(bad_line(rt, "--word goes with --summary --outcomes alone"));
    }
    if text.split(',').count() > MOST_WORDS {
        return Err(bad_line(
            rt,
            "--word takes one to four words, as counter or counter,turn",
        ));
    }
    Ok(())
}

/// The words that an order means by the symbols of a program. The error is the status of a text
/// that means none, which is reported.
pub(crate) fn read_words<R: AllocGlobal + Eprint>(
    rt: &R,
    order: &CampaignOrder,
    program: &[u8],
) -> Result<Words, Status> {
    let Some(text) = order.word else {
        return Ok(Words::NONE);
    };
    let symbols = symbols_of(rt, program)?;
    let mut texts = text.split(',');
    Ok(Words {
        first: word_said(rt, &symbols, texts.next())?,
        second: word_said(rt, &symbols, texts.next())?,
        third: word_said(rt, &symbols, texts.next())?,
        fourth: word_said(rt, &symbols, texts.next())?,
    })
}

// The address of a word, if there is a text of one; the fault of a text that means none is
// reported.
fn word_said(
    rt: &impl Eprint,
    symbols: &[Symbol<Global>],
    text: Option<&str>,
) -> Result<Option<u32>, Status> {
    match text {
        Some(text) => {
            let word = property_said(rt, text, word_meant(symbols, text.as_bytes()))?;
            Ok(Some(word))
        }
        None => Ok(None),
    }
}

/// Shows by which text an order names each word, as `00011040 is counter`.
pub(crate) fn show_words<R: Eprint>(rt: &R, order: &CampaignOrder, words: Words) -> Option<()> {
    let mut texts = order.word?.split(',');
    show_word(rt, texts.next(), words.first)?;
    show_word(rt, texts.next(), words.second)?;
    show_word(rt, texts.next(), words.third)?;
    show_word(rt, texts.next(), words.fourth)
}

// Shows by which text a word is named; a text that is an address says no more.
fn show_word(rt: &impl Eprint, text: Option<&str>, address: Option<u32>) -> Option<()> {
    let (text, address) = (text?, address?);
    if text.starts_with("0x") {
        return Some(());
    }
    eprintln!(rt; "{address:08x} is {text}").ok()
}
