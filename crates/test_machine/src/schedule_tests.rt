//! Tests example schedules.
use machine::Choice;
use rand_core::utils::NextWord;
use rand_pcg::Lcg64Xsh32;
use sched_draw::{Draw, Schedule, list_schedule, seeded_generator};
use sched_text::{print_choices, print_runs, read_choices};
use std::alloc::{AllocError, Allocator, Global};
use test_refusing::Refusing;

/// A form of printed choices.
#[derive(Clone, Copy)]
enum Form {
    /// Each choice is an item.
    Choices,
    /// Each run of equal choices is.
    Runs,
}

/// Choices and their printed form.
struct Printed {
    form: Form,
    choices: &'static [Choice],
    text: &'static str,
}

/// Choices one by one, and by runs.
#[rattlefmt::skip]
const PRINTED: [Printed; 13] = [
    Printed { form: Form::Choices, choices: &[], text: "" },
    Printed { form: Form::Choices, choices: &[plain!(0), plain!(1), refused!(0)], text: "0 1 0!\n" },
    Printed { form: Form::Choices, choices: &[refused!(7)], text: "7!\n" },
    Printed { form: Form::Choices, choices: &[plain!(10), plain!(4294967295)], text: "10 4294967295\n" },
    Printed { form: Form::Choices, choices: &[plain!(0), plain!(0)], text: "0 0\n" },
    Printed { form: Form::Choices, choices: &FIVE_CHOICES, text: "3 0! 7 2! 0\n" },
    Printed { form: Form::Runs, choices: &[], text: "" },
    Printed { form: Form::Runs, choices: &[plain!(0)], text: "0\n" },
    Printed { form: Form::Runs, choices: &[plain!(0), plain!(0), plain!(0), refused!(1), refused!(1), plain!(0)], text: "0*3 1!*2 0\n" },
    Printed { form: Form::Runs, choices: &[refused!(1), plain!(1), plain!(1)], text: "1! 1*2\n" },
    Printed { form: Form::Runs, choices: &[plain!(0), plain!(1), plain!(0)], text: "0 1 0\n" },
    Printed { form: Form::Runs, choices: &[refused!(31), refused!(31)], text: "31!*2\n" },
    Printed { form: Form::Runs,
        choices: &[plain!(3), plain!(3), refused!(0), plain!(7), plain!(7), plain!(0)],
        text: "3*2 0! 7*2 0\n" },
];

// Whether choices are printed as in a row.
fn is_printed(alloc: Global, row: &Printed) -> Result<bool, AllocError> {
    let text = match row.form {
        Form::Choices => print_choices(alloc, row.choices)?,
        Form::Runs => print_runs(alloc, row.choices)?,
    };
    Ok(text.as_str() == row.text)
}

#[test]
fn choices_are_printed(rt: HostRuntime) {
    for row in &PRINTED {
        assert!(rt; is_printed(rt.alloc(), row) == Ok(true), "{}", row.text);
    }
}

// The choices of a schedule that is the same in each run.
fn listed<A: Allocator>(
    alloc: A,
    schedule: Schedule,
    harts: u32,
    steps: u64,
) -> Result<Vec<Choice, A>, AllocError> {
    if schedule.follows_run() || !schedule.is_of_harts(harts) {
        return Err(AllocError);
    }
    list_schedule(alloc, schedule, harts, steps)
}

// Whether a run that is too long for one item is printed as two.
fn is_run_cut(alloc: Global) -> Result<bool, AllocError> {
    let choices = listed(alloc, Schedule::Only(0), 1, 16_777_217)?;
    let text = print_runs(alloc, choices.as_slice())?;
    Ok(text.as_str() == "0*16777216 0\n")
}

#[test]
fn a_run_is_cut_at_its_longest(rt: HostRuntime) {
    assert!(rt; is_run_cut(rt.alloc()) == Ok(true));
}

/// Five choices of different harts.
const FIVE_CHOICES: [Choice; 5] = [plain!(3), refused!(0), plain!(7), refused!(2), plain!(0)];

// Whether the printed text of five choices is read as their list.
fn is_read_back(alloc: Global) -> Option<bool> {
    let text = print_choices(alloc, &FIVE_CHOICES).ok()?;
    let read = read_choices(alloc, text.as_bytes(), 8).ok()?;
    Some(read.as_slice() == FIVE_CHOICES.as_slice())
}

#[test]
fn a_printed_text_reads_as_its_list(rt: HostRuntime) {
    assert!(rt; is_read_back(rt.alloc()) == Some(true));
}

/// Three harts in turn for five steps.
const TURNS: [Choice; 5] = [plain!(0), plain!(1), plain!(2), plain!(0), plain!(1)];

/// One hart for three steps.
const ALONE: [Choice; 3] = [plain!(2), plain!(2), plain!(2)];

fn are_turns(alloc: Global) -> Result<bool, AllocError> {
    Ok(listed(alloc, Schedule::Turns, 3, 5)?.as_slice() == TURNS.as_slice())
}

// Whether `steps` steps of a hart alone are these choices.
fn is_alone(alloc: Global, steps: u64, wanted: &[Choice]) -> Result<bool, AllocError> {
    Ok(listed(alloc, Schedule::Only(2), 3, steps)?.as_slice() == wanted)
}

#[test]
fn harts_take_turns(rt: HostRuntime) {
    assert!(rt; are_turns(rt.alloc()) == Ok(true));
    assert!(rt; is_alone(rt.alloc(), 3, &ALONE) == Ok(true));
    assert!(rt; is_alone(rt.alloc(), 0, &[]) == Ok(true));
}

/// The words that the demo of PCG's C code prints of the generator with state 42 and stream 54.
#[rattlefmt::skip]
const PUBLISHED_WORDS: [u32; 6] = [
    0xa15c_02b7, 0x7b47_f409, 0xba1d_3330, 0x83d2_f293, 0xbfa4_784b, 0xcbed_606e,
];

#[test]
fn generator_gives_the_published_words(rt: HostRuntime) {
    let mut generator = Lcg64Xsh32::new(42, 54);
    for word in &PUBLISHED_WORDS {
        assert!(rt; generator.next_word() == *word, "{word}");
    }
}

// Each choice is the word's remainder by the number of harts, refused where the word's bits 16 to
// 19 are 0.
fn choice_of(word: u32) -> Choice {
    Choice {
        hart: word % 3,
        refuse: (word >> 16) & 15 == 0,
    }
}

// Whether choices are those of the words of a seed's generator.
fn are_of_words(choices: &[Choice], seed: u64) -> bool {
    let mut generator = seeded_generator(seed);
    for choice in choices {
        if *choice != choice_of(generator.next_word()) {
            return false;
        }
    }
    true
}

// The default schedule of a seed.
fn seeded(seed: u64) -> Schedule {
    Schedule::Seeded {
        seed,
        draw: Draw::usual(),
    }
}

// Whether the 200 choices of a seed follow the words.
fn is_seeded(alloc: Global, seed: u64) -> Result<bool, AllocError> {
    let choices = listed(alloc, seeded(seed), 3, 200)?;
    Ok(choices.len() == 200 && are_of_words(choices.as_slice(), seed))
}

#[test]
fn seeded_choices_follow_the_words(rt: HostRuntime) {
    for seed in [0, 1, 5, u64::MAX] {
        assert!(rt; is_seeded(rt.alloc(), seed) == Ok(true), "seed {seed}");
    }
}

// Whether nine steps of two harts of a schedule fail if the first request is refused.
fn is_refused(alloc: Global, schedule: Schedule) -> bool {
    let heap = Refusing::new(alloc, 0);
    listed(&heap, schedule, 2, 9).is_err() && heap.refused()
}

#[test]
fn a_refused_schedule_is_told(rt: HostRuntime) {
    for schedule in [Schedule::Turns, Schedule::Only(1), seeded(1)] {
        assert!(rt; is_refused(rt.alloc(), schedule));
    }
    assert!(rt; listed(rt.alloc(), Schedule::Only(0), 1, u64::MAX).is_err());
}
