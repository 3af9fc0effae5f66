//! Hints for a person at a terminal on a fault of sources, which are read again for them. If that
//! fails, or is out of memory, there are none.

use asm_statement::Fault;
use cli_report::{Audience, read_again, show};
use hint_asm::{SourceText, asm_advice, entry_advice};
use std::rt::Files;

// The sources as texts, if they can be read again.
fn texts_of<R: Files + AllocGlobal>(rt: &R, paths: &[&str]) -> Option<Vec<String>> {
    let mut texts = Vec::new(rt.alloc());
    'paths: for path in paths {
        let bytes = read_again(rt, path)?;
        let text = String::from_utf8(bytes).ok()?;
        texts.push(text).ok()?;
    }
    Some(texts)
}

// What is told of sources.
#[derive(Clone, Copy)]
enum Told {
    // What is wrong, and what to write.
    Fault(Fault),
    // Where their program begins.
    Entry,
}

/// Explains a fault of sources.
pub(crate) fn explain_sources<R: Files + AllocGlobal + Eprint>(
    rt: &R,
    audience: Audience,
    paths: &[&str],
    fault: Fault,
) {
    if audience.is_told() {
        let _ = tell_of_sources(rt, paths, Told::Fault(fault));
    }
}

/// Tells where the program of sources begins, if they have `main` in the place of `_start`.
pub(crate) fn explain_entry<R: Files + AllocGlobal + Eprint>(
    rt: &R,
    audience: Audience,
    paths: &[&str],
) {
    if audience.is_told() {
        let _ = tell_of_sources(rt, paths, Told::Entry);
    }
}

/// Explains that a source isn't text.
pub(crate) fn explain_no_text(rt: &impl Eprint, audience: Audience, path: &str) {
    if audience.is_told() {
        let _ = eprintln!(rt;
            "{path}: this is no text in UTF-8: is it a program? rvcons list shows one"
        );
    }
}

// Tells of sources, if they can be read again.
fn tell_of_sources<R: Files + AllocGlobal + Eprint>(
    rt: &R,
    paths: &[&str],
    told: Told,
) -> Option<()> {
    let texts = texts_of(rt, paths)?;
    let mut sources = Vec::new(rt.alloc());
    'paths: for (path, text) in paths.iter().zip(texts.iter()) {
        let source = SourceText {
            path: *path,
            text: text.as_str(),
        };
        sources.push(source).ok()?;
    }
    match told {
        Told::Fault(fault) => {
            let text = asm_advice(rt.alloc(), &sources, fault).ok()?;
            show(rt, &text);
        }
        Told::Entry => show(rt, entry_advice(rt.alloc(), &sources).ok()?),
    }
    Some(())
}
