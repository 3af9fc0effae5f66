//! Properties of a memory of pages without a clause: that calls succeed, the state when out of
//! memory, and results on independent rows.

use crate::calls::{Call, GRANTS, count_on, is_granted, store_of};
use image::{ElfFault, Image};
use mem_paged::{Number, PageStore, store_into_copy, store_into_original, store_number};
use mem_store::{AccessFault, FromImage, Store, StoreFault};
use std::alloc::{AllocError, Allocator, Global};
use test_images::{Part, checked_image};
use test_refusing::Refusing;

type Paged = PageStore<Global>;

/// Segments that share the page from 0x11000 on: one extends into it from the page before, one has
/// its next two bytes.
#[rattlefmt::skip]
const SHARED_PAGE: [Part; 2] = [
    Part { base: 0x0001_0ffe, size: 4, flags: 6, bytes: &[1, 2, 3, 4] },
    Part { base: 0x0001_1002, size: 2, flags: 4, bytes: &[5, 6] },
];

// Half of the word at 0x11000 is writable.
static ON_THE_SHARED_PAGE: [Call; 9] = [
    Call::Store32(0x0001_1000, 0, Err(StoreFault::Access)),
    Call::MayStore32(0x0001_1000, Err(AccessFault::Access)),
    Call::Load32(0x0001_1000, Ok(0x0605_0403)),
    Call::Store16(0x0001_1000, 0xb2b1, Ok(())),
    Call::Store16(0x0001_1002, 0, Err(StoreFault::Access)),
    Call::Load32(0x0001_1000, Ok(0x0605_b2b1)),
    Call::Load16(0x0001_0ffe, Ok(0x0201)),
    Call::Peek(0x0001_0ffd, None),
    Call::Peek(0x0001_1004, None),
];

#[test]
fn segments_share_a_page(rt: HostRuntime) -> Result<(), ElfFault> {
    let answered = count_on::<Paged>(rt.alloc(), &SHARED_PAGE, &ON_THE_SHARED_PAGE)?;
    assert!(rt; answered == ON_THE_SHARED_PAGE.len(), "call {answered}");
    Ok(())
}

#[rattlefmt::skip]
const THREE_PAGES: [Part; 1] = [Part { base: 0x0000_1000, size: 0x3000, flags: 7, bytes: &[] }];

// A fetch may begin at any address, so it may be in two pages.
static AT_THE_ENDS: [Call; 22] = [
    Call::Store8(0x0000_1fff, 0x11, Ok(())),
    Call::Store8(0x0000_2000, 0x22, Ok(())),
    Call::Store16(0x0000_2ffe, 0x4433, Ok(())),
    Call::Store32(0x0000_3000, 0x8877_6655, Ok(())),
    Call::Store32(0x0000_2ff8, 0xccbb_aa99, Ok(())),
    Call::Load32(0x0000_1ffc, Ok(0x1100_0000)),
    Call::Load16(0x0000_2000, Ok(0x0022)),
    Call::Load32(0x0000_2ffc, Ok(0x4433_0000)),
    Call::Fetch(0x0000_2ffe, Some(0x6655_4433)),
    Call::Fetch(0x0000_2ffb, Some(0x3300_00cc)),
    Call::Fetch(0x0000_3ffe, None),
    Call::Fetch(0x0000_0fff, None),
    Call::Load32(0x0000_1ffe, Err(AccessFault::Misaligned)),
    Call::Store32(0x0000_1ffe, 1, Err(StoreFault::Misaligned)),
    Call::Load32(0x0000_2001, Err(AccessFault::Misaligned)),
    Call::Store32(0x0000_2001, 1, Err(StoreFault::Misaligned)),
    Call::Load32(0x0000_2fff, Err(AccessFault::Misaligned)),
    Call::Store32(0x0000_2fff, 1, Err(StoreFault::Misaligned)),
    Call::Load16(0x0000_1fff, Err(AccessFault::Misaligned)),
    Call::Store16(0x0000_1fff, 1, Err(StoreFault::Misaligned)),
    Call::Load8(0x0000_4000, Err(AccessFault::Access)),
    Call::Store8(0x0000_0fff, 1, Err(StoreFault::Access)),
];

#[test]
fn each_width_at_the_ends_of_a_page(rt: HostRuntime) -> Result<(), ElfFault> {
    let answered = count_on::<Paged>(rt.alloc(), &THREE_PAGES, &AT_THE_ENDS)?;
    assert!(rt; answered == AT_THE_ENDS.len(), "call {answered}");
    Ok(())
}

#[rattlefmt::skip]
const FIRST_AND_LAST: [Part; 2] = [
    Part { base: 0xffff_fff8, size: 8, flags: 7, bytes: &[9] },
    Part { base: 0, size: 8, flags: 7, bytes: &[5] },
];

static ON_FIRST_AND_LAST: [Call; 8] = [
    Call::Load32(0, Ok(5)),
    Call::Load32(0xffff_fff8, Ok(9)),
    Call::Store32(0xffff_fffc, 0x0102_0304, Ok(())),
    Call::Load8(0xffff_ffff, Ok(1)),
    Call::Fetch(0xffff_fffc, Some(0x0102_0304)),
    Call::Fetch(0xffff_fffd, Some(0x0501_0203)),
    Call::Load8(8, Err(AccessFault::Access)),
    Call::Load32(0x8000_0000, Err(AccessFault::Access)),
];

#[test]
fn the_first_and_the_last_page_are_mapped(rt: HostRuntime) -> Result<(), ElfFault> {
    let answered = count_on::<Paged>(rt.alloc(), &FIRST_AND_LAST, &ON_FIRST_AND_LAST)?;
    assert!(rt; answered == ON_FIRST_AND_LAST.len(), "call {answered}");
    Ok(())
}

#[test]
fn rights_grant_what_they_name(rt: HostRuntime) {
    for row in &GRANTS {
        assert!(rt;
            is_granted::<Paged>(rt.alloc(), row) == Ok(true),
            "{}",
            row.flags
        );
    }
}

/// Two writable pages.
#[rattlefmt::skip]
const TWO_PAGES: [Part; 1] = [Part { base: 0x0000_1000, size: 0x2000, flags: 6, bytes: &[] }];

/// Numbers of each width, and their addresses: at both ends of a page.
const NUMBERS: [(u32, Number); 6] = [
    (0x0000_2000, Number::Byte(0xa1)),
    (0x0000_2fff, Number::Byte(0xa2)),
    (0x0000_2000, Number::Half(0xb2b1)),
    (0x0000_2ffe, Number::Half(0xb4b3)),
    (0x0000_2000, Number::Word(0xc4c3_c2c1)),
    (0x0000_2ffc, Number::Word(0xc8c7_c6c5)),
];

// Whether a number stored into a memory of zeros is visible there, and not in a copy made before.
fn is_copy_kept(
    alloc: Global,
    store: &mut Paged,
    address: u32,
    number: Number,
) -> Result<bool, AllocError> {
    let word = address - address % 4;
    let (copy, stored) = store_into_original(alloc, store, address, number)?;
    Ok(stored == Ok(()) && copy.load32(word) == Ok(0) && store.load32(word) != Ok(0))
}

// Whether a word stored into a copy is visible there, and not in the original.
fn is_original_kept(alloc: Global, store: &mut Paged, word: u32) -> Result<bool, AllocError> {
    let before = store.load32(word);
    let (copy, stored) = store_into_copy(alloc, store, word, Number::Word(7))?;
    Ok(stored == Ok(()) && copy.load32(word) == Ok(7) && store.load32(word) == before)
}

// Whether neither a copy nor its original changes when a number is stored into the other.
fn are_apart(alloc: Global, address: u32, number: Number) -> Result<bool, ElfFault> {
    let mut store: Paged = store_of(alloc, &TWO_PAGES)?;
    let copy = is_copy_kept(alloc, &mut store, address, number);
    let original = is_original_kept(alloc, &mut store, address - address % 4);
    Ok(copy == Ok(true) && original == Ok(true))
}

#[test]
fn neither_a_copy_nor_its_original_changes_with_the_other(rt: HostRuntime) {
    for (address, number) in &NUMBERS {
        assert!(rt;
            are_apart(rt.alloc(), *address, *number) == Ok(true),
            "{address}"
        );
    }
}

// A memory with one word that is 5 in each of two pages.
fn two_pages<A: Allocator + Copy>(
    alloc: A,
    image: &Image<Global>,
) -> Result<PageStore<A>, AllocError> {
    let mut store = PageStore::from_image(alloc, image)?;
    for address in [0x0000_1ffc, 0x0000_2000] {
        store.store32(address, 5).map_err(|_| AllocError)?;
    }
    Ok(store)
}

/// The outcome of a store into a copy.
#[derive(Clone, Copy, PartialEq, Eq)]
enum Outcome {
    /// A request for memory was refused, and the rest is as expected.
    Refused,
    /// No request was refused, and the rest is as expected.
    Stored,
    Wrong,
}

impl Outcome {
    // The outcome if a request was refused and the rest is as expected.
    fn of_refusal(heap: &Refusing<Global>, is_right: bool) -> Outcome {
        if heap.refused() && is_right {
            Outcome::Refused
        } else {
            Outcome::Wrong
        }
    }
}

/// A memory under an allocator that refuses a request.
type Scarce<'a> = PageStore<&'a Refusing<Global>>;

// Whether a store that was out of memory has left a copy and its original unchanged, and a later
// one succeeds.
fn is_left<'a>(store: &Scarce<'a>, copy: &mut Scarce<'a>) -> bool {
    copy.load32(0x0000_2000) == Ok(5)
        && copy.store16(0x0000_2000, 6) == Ok(())
        && store.load32(0x0000_2000) == Ok(5)
}

// Stores 6 over the 5 of a copy.
fn outcome_of_store<'a>(
    heap: &'a Refusing<Global>,
    store: &Scarce<'a>,
    copy: &mut Scarce<'a>,
) -> Outcome {
    let refused_before = heap.refused();
    let stored = store_number(copy, 0x0000_2000, Number::Half(6));
    if store.load32(0x0000_2000) != Ok(5) {
        return Outcome::Wrong;
    }
    if let Err(fault) = stored {
        let is_right = fault == StoreFault::Memory && !refused_before && is_left(store, copy);
        return Outcome::of_refusal(heap, is_right);
    }
    if copy.load32(0x0000_2000) != Ok(6) || heap.refused() != refused_before {
        return Outcome::Wrong;
    }
    if refused_before {
        Outcome::Refused
    } else {
        Outcome::Stored
    }
}

// Copies a memory, and stores into the copy.
fn outcome_of_copy<'a>(heap: &'a Refusing<Global>, store: &Scarce<'a>) -> Outcome {
    match store.copy(heap) {
        Ok(mut copy) => outcome_of_store(heap, store, &mut copy),
        Err(_) => Outcome::of_refusal(heap, store.load32(0x0000_2000) == Ok(5)),
    }
}

// Makes a memory, copies it, and stores into the copy; the request after `passed` ones is refused.
fn outcome_of(alloc: Global, image: &Image<Global>, passed: u64) -> Outcome {
    let heap = Refusing::new(alloc, passed);
    match two_pages(&heap, image) {
        Ok(store) => outcome_of_copy(&heap, &store),
        Err(_) => Outcome::of_refusal(&heap, true),
    }
}

#[test]
fn a_store_that_is_refused_memory_changes_nothing(rt: HostRuntime) -> Result<(), ElfFault> {
    let image = checked_image(rt.alloc(), 0, &TWO_PAGES)?;
    let mut last = Outcome::Refused;
    for passed in 0..40u64 {
        last = outcome_of(rt.alloc(), &image, passed);
        assert!(rt; last != Outcome::Wrong, "{passed}");
    }
    assert!(rt; last == Outcome::Stored);
    Ok(())
}

/// 130 writable pages.
#[rattlefmt::skip]
const CHUNKS: [Part; 1] = [Part { base: 0x0010_0000, size: 0x8_2000, flags: 6, bytes: &[] }];

/// A word in the first and the last page of each chunk of 130 pages from 0x100000 on, and the value
/// to store there.
const WORDS_BY_CHUNK: [(u32, u32); 6] = [
    (0x0010_0000, 1),
    (0x0013_f000, 2),
    (0x0014_0000, 3),
    (0x0017_f000, 4),
    (0x0018_0000, 5),
    (0x0018_1ffc, 6),
];

// Stores the words; returns whether each store succeeds.
fn are_stored(store: &mut Paged) -> bool {
    for (address, value) in &WORDS_BY_CHUNK {
        if store.store32(*address, *value) != Ok(()) {
            return false;
        }
    }
    true
}

/// Three memories of chunks.
#[derive(Drop)]
struct Copies {
    /// A copy made before the words were stored.
    first: Paged,
    /// The memory that they were stored into.
    store: Paged,
    /// A copy made after that.
    copy: Paged,
}

// Makes the three; `None` when out of memory, or if a store fails.
fn copies_of(alloc: Global) -> Option<Copies> {
    let mut store: Paged = store_of(alloc, &CHUNKS).ok()?;
    let first = store.copy(alloc).ok()?;
    if !are_stored(&mut store) {
        return None;
    }
    let copy = store.copy(alloc).ok()?;
    Some(Copies { first, store, copy })
}

// Whether a word is in the memory and not in the first copy, and one stored into the other copy is
// only there.
fn is_word_apart(copies: &mut Copies, address: u32, value: u32) -> bool {
    copies.store.load32(address) == Ok(value)
        && copies.copy.store32(address, 7) == Ok(())
        && copies.copy.load32(address) == Ok(7)
        && copies.store.load32(address) == Ok(value)
        && copies.first.load32(address) == Ok(0)
}

// Whether this holds for each word, and nothing is mapped after the last page.
fn are_words_apart(copies: &mut Copies) -> bool {
    for (address, value) in &WORDS_BY_CHUNK {
        if !is_word_apart(copies, *address, *value) {
            return false;
        }
    }
    copies.store.load32(0x0018_2000) == Err(AccessFault::Access)
}

fn are_chunks_apart(alloc: Global) -> Option<bool> {
    let mut copies = copies_of(alloc)?;
    Some(are_words_apart(&mut copies))
}

#[test]
fn pages_of_each_chunk_are_apart(rt: HostRuntime) {
    assert!(rt; are_chunks_apart(rt.alloc()) == Some(true));
}

/// 65 writable pages.
#[rattlefmt::skip]
const A_CHUNK_AND_A_PAGE: [Part; 1] = [Part { base: 0x0010_0000, size: 0x4_1000, flags: 6, bytes: &[] }];

// Whether a memory is made if the request after `passed` ones is refused.
fn is_made(alloc: Global, image: &Image<Global>, passed: u64) -> bool {
    let heap = Refusing::new(alloc, passed);
    PageStore::from_image(&heap, image).is_ok()
}

// The number of requests of making a memory; 0 if there are 400 or more.
fn requests_of(alloc: Global, image: &Image<Global>) -> u64 {
    for passed in 0..400u64 {
        if is_made(alloc, image, passed) {
            return passed;
        }
    }
    0
}

// Whether a memory's first copy takes one request: the first request of another copy is then
// refused.
fn takes_one<'a>(heap: &'a Refusing<Global>, store: &Scarce<'a>) -> bool {
    store.copy(heap).is_ok() && !heap.refused() && store.copy(heap).is_err() && heap.refused()
}

// Whether a copy takes one request after those of the memory.
fn is_copied_by_one(alloc: Global) -> Result<bool, ElfFault> {
    let image = checked_image(alloc, 0, &A_CHUNK_AND_A_PAGE)?;
    let made = requests_of(alloc, &image);
    let heap = Refusing::new(alloc, made.saturating_add(1));
    let Ok(store) = PageStore::from_image(&heap, &image) else {
        return Err(ElfFault::Memory);
    };
    Ok(made != 0 && takes_one(&heap, &store))
}

#[test]
fn a_copy_asks_for_memory_once(rt: HostRuntime) {
    assert!(rt; is_copied_by_one(rt.alloc()) == Ok(true));
}

/// The bytes of a segment that extends over four pages and ends with zeros.
static SEVENS: [u8; 4100] = [7; 4100];

static OVER_PAGES: [Call; 11] = [
    Call::Load8(0x0000_0ffd, Err(AccessFault::Access)),
    Call::Load8(0x0000_0ffe, Ok(7)),
    Call::Load8(0x0000_0fff, Ok(7)),
    Call::Load8(0x0000_1000, Ok(7)),
    Call::Load8(0x0000_1fff, Ok(7)),
    Call::Load8(0x0000_2001, Ok(7)),
    Call::Load8(0x0000_2002, Ok(0)),
    Call::Load8(0x0000_3001, Ok(0)),
    Call::Load8(0x0000_3002, Err(AccessFault::Access)),
    Call::Load32(0x0000_2000, Ok(0x0000_0707)),
    Call::Load32(0x0000_3000, Err(AccessFault::Access)),
];

#[test]
fn a_segment_reaches_over_pages(rt: HostRuntime) -> Result<(), ElfFault> {
    let part = Part {
        base: 0x0000_0ffe,
        size: 0x2004,
        flags: 6,
        bytes: SEVENS.as_slice(),
    };
    let answered = count_on::<Paged>(rt.alloc(), &[part], &OVER_PAGES)?;
    assert!(rt; answered == OVER_PAGES.len(), "call {answered}");
    Ok(())
}
