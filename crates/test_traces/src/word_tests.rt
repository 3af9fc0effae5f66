//! Traces of the accesses of one word, worked by hand.
use crate::worked::{EACH_ACCESS, file_of};
use byte_io::{MemorySink, MemorySource, Status};
use cmd_trace::{TraceForm, TracePlan, trace_engine};
use program_open::ProgramForm;
use std::alloc::Global;

// A trace of a word's accesses: how its lines begin, those of its head among them.
struct OfWord {
    name: &'static str,
    form: TraceForm,
    word: u32,
    begins: &'static [&'static str],
}

// The first bytes of the heads.
const JSON: &str = "{\"trace\":1,";

const COLUMNS: &str = "| Choice | Hart 0 | At |";

const RULES: &str = "|---|---|---|";

#[rattlefmt::skip]
static TRACES: [OfWord; 8] = [
    // Choice 8 loads four bytes, of which two are of each of both words: it is misaligned.
    OfWord { name: "lines of the first word", form: TraceForm::Lines, word: 0x11000,
        begins: &[JSON, "{\"choice\":1,", "{\"choice\":2,", "{\"choice\":3,", "{\"choice\":4,",
            "{\"choice\":5,", "{\"choice\":6,", "{\"choice\":8,"] },
    OfWord { name: "lines of its neighbour", form: TraceForm::Lines, word: 0x11004,
        begins: &[JSON, "{\"choice\":8,"] },
    OfWord { name: "lines of a word that nothing accesses", form: TraceForm::Lines, word: 0x11008,
        begins: &[JSON] },
    OfWord { name: "lines of the word before the first", form: TraceForm::Lines, word: 0x10ffc,
        begins: &[JSON] },
    OfWord { name: "lines of the last word", form: TraceForm::Lines, word: 0xffff_fffc,
        begins: &[JSON] },
    OfWord { name: "rows of the first word", form: TraceForm::Table, word: 0x11000,
        begins: &[COLUMNS, RULES, "| 1 |", "| 2 |", "| 3 |", "| 4 |", "| 5 |", "| 6 |", "| 8 |"] },
    OfWord { name: "rows of its neighbour", form: TraceForm::Table, word: 0x11004,
        begins: &[COLUMNS, RULES, "| 8 |"] },
    OfWord { name: "rows that access the first word", form: TraceForm::Shared, word: 0x11000,
        begins: &[COLUMNS, RULES, "| 1 |", "| 2 |", "| 3 |", "| 4 |", "| 5 |", "| 6 |", "| 8 |"] },
];

// The traces that are tried.
fn traces() -> &'static [OfWord] {
    &TRACES
}

// What is behind the first line of a text.
fn behind_line(text: &[u8]) -> &[u8] {
    match text.iter().position(|byte| *byte == b'\n') {
        Some(at) => &text[at + 1..],
        None => &[],
    }
}

// Whether each line of a text begins so, in this order.
fn begins_so(text: &[u8], begins: &[&str]) -> bool {
    let mut rest = text;
    for begin in begins {
        if !rest.starts_with(begin.as_bytes()) {
            return false;
        }
        rest = behind_line(rest);
    }
    rest.is_empty()
}

// Whether a trace is as it should be; None where there is no file for it.
fn is_so(host: Global, trace: &OfWord) -> Option<bool> {
    let file = file_of(host, EACH_ACCESS)?;
    let plan = TracePlan {
        form: trace.form,
        from: 0,
        to: None,
        word: Some(trace.word),
    };
    let mut program = MemorySource::new(&file);
    let mut choices = MemorySource::new(b"0*10");
    let mut sink = MemorySink::new(host);
    let answer = trace_engine(
        host,
        ProgramForm::Elf,
        plan,
        &[7],
        &mut program,
        &mut choices,
        &mut sink,
    );
    Some(answer == Ok(Status::Done) && begins_so(sink.bytes(), trace.begins))
}

#[test]
fn only_accesses_of_the_word_are_traced(rt: HostRuntime) {
    for trace in traces() {
        let name = trace.name;
        assert!(rt; is_so(rt.alloc(), trace) == Some(true), "{name}");
    }
}
