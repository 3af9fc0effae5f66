//! How many places turns reach of the objects of the library, as a program that was written
//! independently counts them, and where a search gives up.
use byte_io::Progress;
use explore_space::{Answer, OwnBounds, Question, ScRefusals, explore};
use machine::Inputs;
use object_library::{Kind, make_image};
use outcome::{Exit, Expect};
use std::alloc::Global;

// An object with its inputs, and the number of places that turns reach.
struct Row {
    kind: Kind,
    refusals: ScRefusals,
    inputs: &'static [u32],
    places: usize,
}

#[rattlefmt::skip]
const ROWS: [Row; 6] = [
    Row { kind: Kind::Swap, refusals: ScRefusals::Never, inputs: &[7, 9], places: 24 },
    Row { kind: Kind::Add, refusals: ScRefusals::Never, inputs: &[7, 9], places: 24 },
    Row { kind: Kind::LrSc, refusals: ScRefusals::Never, inputs: &[7, 9], places: 69 },
    Row { kind: Kind::LrSc, refusals: ScRefusals::Also, inputs: &[7, 9], places: 91 },
    Row { kind: Kind::LrSc, refusals: ScRefusals::Never, inputs: &[7, 9, 4], places: 927 },
    Row { kind: Kind::AdoptCommit, refusals: ScRefusals::Never, inputs: &[7, 9], places: 324 },
];

// How many worlds were last reported, done and found.
#[derive(Clone, Copy, PartialEq, Eq)]
struct Heard {
    done: u64,
    found: u64,
}

impl Progress for Heard {
    fn worlds_done(&mut self, done: u64, found: u64, _depth: u64) {
        *self = Heard { done, found };
    }
}

// The number of places if no schedule breaks the rule, `None` where so many may not be looked at;
// nothing where the rule is broken or memory is refused.
fn places_of(alloc: Global, row: &Row, most: usize, heard: &mut Heard) -> Option<Option<usize>> {
    let image = make_image(alloc, row.kind).ok()?;
    let inputs = Inputs::new(row.inputs).ok()?;
    let expect = Expect {
        rule: Some(row.kind),
        exit: Exit::May,
    };
    let question = Question {
        expect,
        always: None,
        never_both: None,
        bounds: OwnBounds::NotAsked,
        refusals: row.refusals,
        most,
    };
    match explore(alloc, &image, &inputs, question, heard) {
        Ok(Answer::Holds(held)) => Some(Some(held.places)),
        Ok(Answer::Undecided) => Some(None),
        Ok(Answer::Fails(_) | Answer::Hangs(_)) | Err(_) => None,
    }
}

// Whether so many places are found where so many may be looked at, and the last report is of as
// many as were looked at.
fn finds(alloc: Global, row: &Row, most: usize, places: Option<usize>) -> bool {
    let mut heard = Heard { done: 0, found: 0 };
    let found = places_of(alloc, row, most, &mut heard);
    found == Some(places) && heard.done == row.places.min(most) as u64 && heard.done <= heard.found
}

#[test]
fn places_are_as_many_as_counted(rt: HostRuntime) {
    for row in &ROWS {
        let places = row.places;
        assert!(rt;
            finds(rt.alloc(), row, 100_000, Some(places)),
            "{places} places"
        );
    }
}

#[test]
fn search_gives_up_where_there_are_more(rt: HostRuntime) {
    for row in &ROWS {
        let places = row.places;
        assert!(rt;
            finds(rt.alloc(), row, places, Some(places)),
            "all {places}"
        );
        assert!(rt;
            finds(rt.alloc(), row, places - 1, None),
            "one of {places} less"
        );
        assert!(rt; finds(rt.alloc(), row, 0, None), "none of {places}");
    }
}
