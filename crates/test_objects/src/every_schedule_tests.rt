//! Every schedule of two harts, step by step. A state is what the two harts and their data words
//! are; schedules that have chosen each hart as often and lead to the same state go on as one, and
//! how many they are is counted.

use hart_step::{Hart, HartState};
use machine::{Choice, Inputs, Machine};
use mem_flat::FlatStore;
use mem_store::Store;
use object_library::{Kind, Verdict, judge, make_image};
use std::alloc::{AllocError, Allocator, Global};

// Schedules are counted modulo this prime.
const MODULUS: u64 = 1_000_000_007;

// A state, how often each hart was chosen on the way to it, and how many schedules lead to it.
#[derive(Drop)]
struct Place<A: Allocator> {
    machine: Machine<FlatStore<A>, A>,
    data: Vec<u32, A>,
    chosen: [usize; 2],
    schedules: u64,
}

// The places that schedules of one length lead to, by how often they have chosen hart 0.
type Places<A> = Vec<Vec<Place<A>, A>, A>;

// A word of the data, where all are mapped.
fn word_at<S: Store>(store: &S, address: u32) -> u32 {
    match store.load32(address) {
        Ok(word) => word,
        Err(_) => 0,
    }
}

// The words that two harts may store to: of each of four objects two records with value, presence
// and mark. Swap and Add have the first three.
#[rattlefmt::skip]
const DATA: [u32; 24] = [
    0x0001_1000, 0x0001_1004, 0x0001_1008, 0x0001_1010, 0x0001_1014, 0x0001_1018,
    0x0001_1200, 0x0001_1204, 0x0001_1208, 0x0001_1210, 0x0001_1214, 0x0001_1218,
    0x0001_1400, 0x0001_1404, 0x0001_1408, 0x0001_1410, 0x0001_1414, 0x0001_1418,
    0x0001_1600, 0x0001_1604, 0x0001_1608, 0x0001_1610, 0x0001_1614, 0x0001_1618,
];

// What stands in them.
fn data_of<S: Store, A: Allocator>(alloc: A, store: &S) -> Result<Vec<u32, A>, AllocError> {
    let mut data = Vec::new(alloc);
    for address in &DATA {
        data.push(word_at(store, *address))?;
    }
    Ok(data)
}

// The place before any choice.
fn first_place<A: Allocator + Copy>(alloc: A, search: &Search) -> Result<Place<A>, AllocError> {
    let image = make_image(alloc, search.kind)?;
    let Ok(inputs) = Inputs::new(&search.inputs) else {
        return Err(AllocError);
    };
    let machine: Machine<FlatStore<A>, A> = Machine::start(alloc, &image, &inputs)?;
    let data = data_of(alloc, machine.store())?;
    Ok(Place {
        machine,
        data,
        chosen: [0, 0],
        schedules: 1,
    })
}

// The place that one more choice of a hart leads to.
fn place_after<A: Allocator + Copy>(
    alloc: A,
    place: &Place<A>,
    hart: u32,
) -> Result<Place<A>, AllocError> {
    let mut machine = place.machine.copy(alloc)?;
    if (hart as usize) < machine.harts() {
        machine.step(Choice {
            hart,
            refuse: false,
        })?;
    }
    let data = data_of(alloc, machine.store())?;
    let mut chosen = place.chosen;
    if let Some(often) = chosen.get_mut(hart as usize) {
        *often = often.wrapping_add(1);
    }
    Ok(Place {
        machine,
        data,
        chosen,
        schedules: place.schedules,
    })
}

// Whether two places are of the same state.
fn is_same_state<A: Allocator>(one: &Place<A>, other: &Place<A>) -> bool {
    one.machine.ends() == other.machine.ends() && one.data.as_slice() == other.data.as_slice()
}

// The number of the place of the same state, if it is there.
fn known_place<A: Allocator>(column: &[Place<A>], place: &Place<A>) -> Option<usize> {
    for (number, known) in column.iter().enumerate() {
        if is_same_state(known, place) {
            return Some(number);
        }
    }
    None
}

// Adds a place, or the number of its schedules to the place of the same state.
fn add_place<A: Allocator>(
    column: &mut Vec<Place<A>, A>,
    place: Place<A>,
) -> Result<(), AllocError> {
    let Some(number) = known_place(column, &place) else {
        column.push(place)?;
        return Ok(());
    };
    if let Some(known) = column.get_mut(number) {
        known.schedules = known.schedules.wrapping_add(place.schedules) % MODULUS;
    }
    Ok(())
}

// Whether a hart was chosen less often than its bound says.
fn may_be_chosen<A: Allocator>(place: &Place<A>, hart: u32, bound: usize) -> bool {
    match place.chosen.get(hart as usize) {
        Some(often) => *often < bound,
        None => false,
    }
}

// Adds the places one choice of a hart further, where it was chosen less often than its bound says.
fn add_places<A: Allocator + Copy>(
    alloc: A,
    column: &mut Vec<Place<A>, A>,
    places: &[Place<A>],
    hart: u32,
    bound: usize,
) -> Result<(), AllocError> {
    for place in places {
        if may_be_chosen(place, hart, bound) {
            add_place(column, place_after(alloc, place, hart)?)?;
        }
    }
    Ok(())
}

// The places that are one choice further.
fn next_places<A: Allocator + Copy>(
    alloc: A,
    places: &[Vec<Place<A>, A>],
    bound: usize,
) -> Result<Places<A>, AllocError> {
    let mut next = Vec::new(alloc);
    let mut column = Vec::new(alloc);
    for known in places {
        add_places(alloc, &mut column, known.as_slice(), 1, bound)?;
        next.push(column)?;
        column = Vec::new(alloc);
        add_places(alloc, &mut column, known.as_slice(), 0, bound)?;
    }
    next.push(column)?;
    Ok(next)
}

fn has_exited(hart: &Hart) -> bool {
    match hart.state {
        HartState::Exited(_) => true,
        _ => false,
    }
}

fn choice_of(hart: u32) -> Choice {
    Choice {
        hart,
        refuse: false,
    }
}

// The verdict on harts of which each was chosen so often. Of the choices the rule asks which harts
// they name, so one of each does.
fn verdict_on(search: &Search, chosen: [usize; 2], harts: &[Hart]) -> Verdict {
    let [first, second] = chosen;
    let [a, b] = [choice_of(0), choice_of(1)];
    match (first > 0, second > 0) {
        (true, true) => judge(search.kind, &search.inputs, &[a, b], harts),
        (true, false) => judge(search.kind, &search.inputs, &[a], harts),
        (false, true) => judge(search.kind, &search.inputs, &[b], harts),
        (false, false) => judge(search.kind, &search.inputs, &[], harts),
    }
}

// Whether the rule is kept at a place, and a hart that was chosen as often as its bound says has
// exited.
fn is_kept<A: Allocator>(search: &Search, place: &Place<A>) -> bool {
    let harts = place.machine.ends();
    for (hart, often) in harts.iter().zip(place.chosen) {
        if often >= search.bound && !has_exited(hart) {
            return false;
        }
    }
    verdict_on(search, place.chosen, harts) == Verdict::Kept
}

// What is gone through of an object: its name, its inputs, the bound on a hart's own choices, after
// which it has exited, and how many choices.
struct Search {
    name: &'static str,
    kind: Kind,
    inputs: [u32; 2],
    bound: usize,
    choices: u32,
    schedules: u64,
}

// A hart is chosen as often as its bound says and no more, since it has exited then and a further
// choice changes nothing. So of Swap, Add and AdoptCommit these are all schedules, `(2 * bound)! /
// (bound! * bound!)`. Of Rounds they are the `2 ^ 140` of 140 choices, after which both harts have
// exited in some.
#[rattlefmt::skip]
const CONSENSUS: [Search; 2] = [
    Search { name: "Swap", kind: Kind::Swap, inputs: [7, 9], bound: 15, choices: 30,
        schedules: 155_117_520 },
    Search { name: "Add", kind: Kind::Add, inputs: [7, 9], bound: 15, choices: 30,
        schedules: 155_117_520 },
];

#[rattlefmt::skip]
const ADOPT_COMMIT: Search = Search {
    name: "AdoptCommit", kind: Kind::AdoptCommit, inputs: [0, 0xffff_ffff], bound: 47, choices: 94,
    schedules: 791_779_091,
};

#[rattlefmt::skip]
const ROUNDS: Search = Search {
    name: "Rounds", kind: Kind::Rounds, inputs: [0, 0xffff_ffff], bound: 194, choices: 140,
    schedules: 373_798_577,
};

// Goes through the schedules of a search, and answers how many there are: in each state that they
// and their beginnings reach the rule is kept, and a hart that was chosen as often as its bound
// says has exited. `None`: in one of them it is not so.
fn schedules_of<A: Allocator + Copy>(alloc: A, search: &Search) -> Result<Option<u64>, AllocError> {
    let mut column = Vec::new(alloc);
    column.push(first_place(alloc, search)?)?;
    let mut places = Vec::new(alloc);
    places.push(column)?;
    for _ in 0..search.choices {
        places = next_places(alloc, places.as_slice(), search.bound)?;
        if !places.iter().flatten().all(|place| is_kept(search, place)) {
            return Ok(None);
        }
    }
    let sum = |sum: u64, place: &Place<A>| sum.wrapping_add(place.schedules) % MODULUS;
    Ok(Some(places.iter().flatten().fold(0, sum)))
}

// Whether these are all schedules of a search, and each of them keeps the rule.
fn are_all_kept(alloc: Global, search: &Search) -> bool {
    schedules_of(alloc, search).ok().flatten() == Some(search.schedules)
}

#[test]
fn every_schedule_of_consensus_keeps_the_rule(rt: HostRuntime) {
    for search in &CONSENSUS {
        assert!(rt; are_all_kept(rt.alloc(), search), "{}", search.name);
    }
}

#[test]
fn every_schedule_of_adopt_commit_keeps_the_rule(rt: HostRuntime) {
    assert!(rt; are_all_kept(rt.alloc(), &ADOPT_COMMIT));
}

#[test]
fn every_schedule_of_rounds_keeps_the_rule(rt: HostRuntime) {
    assert!(rt; are_all_kept(rt.alloc(), &ROUNDS));
}
