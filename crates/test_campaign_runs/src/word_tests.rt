//! The words of memory that a seed's ending has: as text, as members of an object, in each report;
//! a seed's run with each request for memory refused in turn.
use campaign_runs::{Campaign, Form, Hangs, Properties, Report, Words, run_seed};
use machine::{Inputs, Machine};
use mem_flat::FlatStore;
use outcome::{Exit, Expect};
use property_judge::Property;
use sched_draw::Draw;
use std::alloc::{AllocError, Allocator, Global};
use test_images::writable_program;
use test_refusing::{Call, tried};

// Each hart stores its input at 0x11000 and exits with it.
const STORES: [u32; 4] = [
    0x0001_1437, // lui s0, 0x11
    0x00b4_2023, // sw a1, 0(s0)
    0x05d0_0893, // addi a7, zero, 93
    0x0000_0073, // ecall
];

// The word that the harts store.
const STORED: Option<u32> = Some(0x0001_1000);

const ONE: Words = Words {
    first: STORED,
    second: None,
    third: None,
    fourth: None,
};

// The stored word, one that no load reads, the program's first, and the stored one again.
const FOUR: Words = Words {
    first: STORED,
    second: Some(0x0002_0000),
    third: Some(0x0001_0000),
    fourth: STORED,
};

const THIRD: Words = Words {
    first: None,
    second: None,
    third: Some(0x0001_0004),
    fourth: None,
};

// No hart is there.
const NOWHERE: Properties = Properties {
    first: Some(Property::NeverBoth {
        from: 0x0002_0000,
        to: 0x0002_0004,
    }),
    second: None,
};

// A seed's run of one hart with the input 7, and the words of its ending.
#[derive(Clone, Copy)]
struct Row {
    steps: u64,
    report: Report,
    form: Form,
    properties: Properties,
    hangs: Hangs,
    words: Words,
    says: &'static str,
}

// A run to the end.
const STORED_ONCE: Row = Row {
    steps: 100,
    report: Report::Outcomes,
    form: Form::Text,
    properties: Properties::NONE,
    hangs: Hangs::Unasked,
    words: ONE,
    says: " 0:a0=00000000 0:a1=00000007 00011000=00000007",
};

#[rattlefmt::skip]
static ROWS: [Row; 16] = [
    STORED_ONCE,
    Row { words: Words::NONE, says: " 0:a0=00000000 0:a1=00000007", ..STORED_ONCE },
    Row { words: FOUR, says: " 0:a0=00000000 0:a1=00000007 00011000=00000007 00020000=00000000 00010000=00011437 00011000=00000007", ..STORED_ONCE },
    Row { words: THIRD, says: " 0:a0=00000000 0:a1=00000007 00010004=00b42023", ..STORED_ONCE },
    Row { steps: 0, says: " 00011000=00000000", ..STORED_ONCE },
    Row { hangs: Hangs::Asked, says: " 0:a0=00000000 0:a1=00000007 00011000=00000007 hangs no", ..STORED_ONCE },
    Row { properties: NOWHERE, says: " never-both kept 0:a0=00000000 0:a1=00000007 00011000=00000007", ..STORED_ONCE },
    Row { form: Form::Json, says: ",\"results\":[{\"hart\":0,\"a0\":0,\"a1\":7}],\"words\":[{\"address\":69632,\"value\":7}]", ..STORED_ONCE },
    Row { form: Form::Json, words: FOUR, hangs: Hangs::Asked,
        says: ",\"results\":[{\"hart\":0,\"a0\":0,\"a1\":7}],\"words\":[{\"address\":69632,\"value\":7},{\"address\":131072,\"value\":0},{\"address\":65536,\"value\":70711},{\"address\":69632,\"value\":7}],\"hangs\":false", ..STORED_ONCE },
    Row { form: Form::Json, words: Words::NONE, says: ",\"results\":[{\"hart\":0,\"a0\":0,\"a1\":7}]", ..STORED_ONCE },
    Row { form: Form::Json, steps: 0, words: THIRD, says: ",\"results\":[],\"words\":[{\"address\":65540,\"value\":11804707}]", ..STORED_ONCE },
    Row { report: Report::Lines, says: "", ..STORED_ONCE },
    Row { report: Report::Failures, says: "", ..STORED_ONCE },
    Row { report: Report::Summary, says: "", ..STORED_ONCE },
    Row { report: Report::Causes, says: "", ..STORED_ONCE },
    Row { report: Report::Summary, form: Form::Json, says: "", ..STORED_ONCE },
];

fn rows() -> &'static [Row] {
    &ROWS
}

impl Row {
    fn campaign(&self) -> Campaign {
        Campaign {
            first: 3,
            count: 1,
            steps: self.steps,
            draw: Draw::usual(),
            expect: Expect {
                rule: None,
                exit: Exit::May,
            },
            properties: self.properties,
            hangs: self.hangs,
            words: self.words,
            report: self.report,
            form: self.form,
        }
    }
}

impl Call for Row {
    fn answer<A: Allocator + Copy>(&self, alloc: A, host: Global) -> Result<bool, AllocError> {
        let image = writable_program(host, &STORES)?;
        let Ok(inputs) = Inputs::new(&[7]) else {
            return Ok(false);
        };
        let start: Machine<FlatStore<A>, A> = Machine::start(alloc, &image, &inputs)?;
        let end = run_seed(alloc, &start, &inputs, self.campaign(), 3)?;
        Ok(end.ending.words.as_str() == self.says)
    }
}

#[test]
fn words_are_those_of_the_end(rt: HostRuntime) {
    for (number, row) in rows().iter().enumerate() {
        assert!(rt; tried(rt.alloc(), row).is_ok(), "row {number}");
    }
}

// Of 64 seeds of two harts with the inputs 7 and 9: how many end with the first one's store as the
// last, and how many with the second's.
fn last_stores(alloc: Global) -> Result<(u64, u64), AllocError> {
    let image = writable_program(alloc, &STORES)?;
    let Ok(inputs) = Inputs::new(&[7, 9]) else {
        return Ok((0, 0));
    };
    let start: Machine<FlatStore<Global>, Global> = Machine::start(alloc, &image, &inputs)?;
    let (mut sevens, mut nines) = (0u64, 0u64);
    for seed in 0..64 {
        let end = run_seed(alloc, &start, &inputs, STORED_ONCE.campaign(), seed)?;
        let results = " 0:a0=00000000 0:a1=00000007 1:a0=00000001 1:a1=00000009";
        match end.ending.words.as_str().strip_prefix(results) {
            Some(" 00011000=00000007") => sevens = sevens.saturating_add(1),
            Some(" 00011000=00000009") => nines = nines.saturating_add(1),
            _ => {}
        }
    }
    Ok((sevens, nines))
}

#[test]
fn words_tell_equal_results_apart(rt: HostRuntime) {
    let Ok((sevens, nines)) = last_stores(rt.alloc()) else {
        return;
    };
    assert!(rt;
        sevens > 0 && nines > 0 && sevens.saturating_add(nines) == 64,
        "{sevens} and {nines}"
    );
}
