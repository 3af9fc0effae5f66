//! How many inputs there may be, and which words they are then.
use machine::{Inputs, StartFault};

// The words 1 to 33.
#[rattlefmt::skip]
const WORDS: [u32; 33] = [
    1, 2, 3, 4, 5, 6, 7, 8, 9, 10, 11, 12, 13, 14, 15, 16, 17, 18, 19, 20, 21, 22, 23, 24, 25, 26,
    27, 28, 29, 30, 31, 32, 33,
];

// The first so many words, and how many harts there are for them.
const COUNTS: [(usize, Result<u32, StartFault>); 4] = [
    (0, Err(StartFault::NoHarts)),
    (1, Ok(1)),
    (32, Ok(32)),
    (33, Err(StartFault::TooManyHarts)),
];

// How many harts there are for the first so many words, which are given back; none where they
// aren't.
fn harts_of(count: usize) -> Option<Result<u32, StartFault>> {
    let words = WORDS.get(..count)?;
    match Inputs::new(words) {
        Ok(inputs) if inputs.words() == words => Some(Ok(inputs.harts())),
        Ok(_) => None,
        Err(fault) => Some(Err(fault)),
    }
}

#[test]
fn one_to_thirty_two_harts_start(rt: HostRuntime) {
    for (count, wanted) in &COUNTS {
        assert!(rt; harts_of(*count) == Some(*wanted), "{count} words");
    }
}
