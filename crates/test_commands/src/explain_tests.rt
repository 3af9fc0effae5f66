//! Tests when a command line wants faults explained.
use cli_args::{Explain, explain_said};
use cli_report::Audience;
use std::alloc::Global;

// Lines, and what they say.
const LINES: [(&str, Explain); 9] = [
    ("rvcons list p", Explain::Auto),
    ("rvcons list p --explain auto", Explain::Auto),
    ("rvcons list p --explain always", Explain::Always),
    ("rvcons --explain=never list", Explain::Never),
    ("rvcons list p --explain sometimes", Explain::Auto),
    ("rvcons list p --explain", Explain::Auto),
    ("rvcons list -- --explain always", Explain::Auto),
    ("rvcons list --explained always", Explain::Auto),
    (
        "rvcons list --explain never --explain always",
        Explain::Never,
    ),
];

// What a line says, if memory suffices.
fn said(alloc: Global, line: &str) -> Option<Explain> {
    let words = line.split(' ').collect::<Vec<&str>>(alloc).ok()?;
    Some(explain_said(words.as_slice()))
}

#[test]
fn lines_say_when_faults_are_explained(rt: HostRuntime) {
    for (line, wanted) in &LINES {
        assert!(rt; said(rt.alloc(), line) == Some(*wanted), "{line}");
    }
}

// Readers, what a line says, and who then reads.
const READERS: [(Audience, Explain, Audience); 6] = [
    (Audience::Person, Explain::Auto, Audience::Person),
    (Audience::Person, Explain::Always, Audience::Person),
    (Audience::Person, Explain::Never, Audience::Program),
    (Audience::Program, Explain::Auto, Audience::Program),
    (Audience::Program, Explain::Always, Audience::Reader),
    (Audience::Program, Explain::Never, Audience::Program),
];

#[test]
fn readers_get_what_they_ask_for(rt: HostRuntime) {
    for (reader, explain, wanted) in &READERS {
        assert!(rt; reader.as_asked(*explain) == *wanted);
    }
}
