//! How runs of the library's objects end in every schedule, as their rules and their code say.
use byte_io::Unheard;
use explore_space::{Answer, OwnBounds, Question, RunEnd, ScRefusals, explore};
use machine::Inputs;
use object_library::{Kind, Verdict, make_image};
use outcome::{Exit, Expect};
use std::alloc::Global;

// What each hart has in `a0` and `a1` at an end.
type Words = &'static [(u32, u32)];

// An object with its inputs, and its ends.
struct Row {
    kind: Kind,
    inputs: &'static [u32],
    ends: &'static [Words],
}

#[rattlefmt::skip]
const ROWS: [Row; 5] = [
    Row { kind: Kind::Swap, inputs: &[7], ends: &[&[(7, 1)]] },
    Row { kind: Kind::Swap, inputs: &[7, 9], ends: &[&[(7, 1), (7, 1)], &[(9, 1), (9, 1)]] },
    Row { kind: Kind::Add, inputs: &[7, 9], ends: &[&[(7, 1), (7, 1)], &[(9, 1), (9, 1)]] },
    Row { kind: Kind::LrSc, inputs: &[7, 9], ends: &[&[(7, 1), (7, 1)], &[(9, 1), (9, 1)]] },
    Row { kind: Kind::AdoptCommit, inputs: &[7, 7], ends: &[&[(7, 1), (7, 1)]] },
];

// Whether an end is one in which each hart has exited with these words, and the rule is kept.
fn is_end(end: &RunEnd<Global>, words: Words) -> bool {
    let outcome = end.outcome;
    outcome.exited == words.len()
        && outcome.running == 0
        && outcome.verdict == Some(Verdict::Kept)
        && end.returned.len() == words.len()
        && end
            .returned
            .iter()
            .zip(words)
            .all(|(returned, word)| (returned.a0, returned.a1) == *word)
}

// Whether the ends of all runs are those of a row; nothing where the rule is broken or memory is
// refused.
fn has_ends(alloc: Global, row: &Row) -> Option<bool> {
    let image = make_image(alloc, row.kind).ok()?;
    let inputs = Inputs::new(row.inputs).ok()?;
    let expect = Expect {
        rule: Some(row.kind),
        exit: Exit::May,
    };
    let question = Question {
        expect,
        always: None,
        never_both: None,
        bounds: OwnBounds::NotAsked,
        refusals: ScRefusals::Also,
        most: 100_000,
    };
    match explore(alloc, &image, &inputs, question, &mut Unheard) {
        Ok(Answer::Holds(held)) => {
            let ends = held.ends.as_slice();
            Some(
                ends.len() == row.ends.len()
                    && row
                        .ends
                        .iter()
                        .all(|words| ends.iter().any(|end| is_end(end, words))),
            )
        }
        Ok(Answer::Fails(_) | Answer::Hangs(_) | Answer::Undecided) | Err(_) => None,
    }
}

#[test]
fn ends_are_those_of_the_object(rt: HostRuntime) {
    for row in &ROWS {
        let harts = row.inputs.len();
        assert!(rt; has_ends(rt.alloc(), row) == Some(true), "{harts} harts");
    }
}
