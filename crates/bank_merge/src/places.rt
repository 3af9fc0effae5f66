//! Places in the banks' logs: how far each has been checked.
ghost use Rattle.std.specs.Prelude.{◌≡◌, ◌==◌, ◌↔◌, ℕ, ◌<◌, true, [], ◌∷◌, drop, length, map, option_to_list, slice_index_or};
ghost use Rattle.bank_laws.specs.Segments.{accesses};
ghost use Rattle.bank_laws.specs.Merged.{most_banks};
ghost use Rattle.bank_merge.specs.AccessOrder.{bank_logs, of_hart, AreLeft, IsBehind, Passes};

use bank_laws::LoggedAccess;
use bank_memory::{BANKS, Bank};
use bank_order::LogSegment;
use std::alloc::Allocator;

/// For each bank a place in its log.
pub(crate) type Places = [usize; 16];

fn is_of(access: &LoggedAccess, hart: usize) -> bool
    ensures { result ≡ (access.now.hart == hart) }
{
    access.hart as usize == hart
}

// Whether two accesses are the same.
fn is_same(first: &LoggedAccess, second: &LoggedAccess) -> bool
    ensures { (result ≡ true) ↔ (first.now ≡ second.now) }
{
    *first == *second
}

// The place after an access in a log, if it is the first of a hart from a place on.
fn place_behind(
    log: &[LoggedAccess],
    hart: usize,
    from: usize,
    access: &LoggedAccess,
) -> Option<usize>
    ensures { IsBehind log.now hart from access.now result }
{
    'accesses: for place in from..log.len() {
        if is_of(&log[place], hart) {
            if is_same(&log[place], access) {
                return Some(place + 1);
            }
            return None;
        }
    }
    None
}

// Whether a log has no access of a hart from a place on.
fn has_none(log: &[LoggedAccess], hart: usize, from: usize) -> bool
    ensures { (result ≡ true) ↔ (of_hart hart (drop from log.now) ≡ []) }
{
    'accesses: for place in from..log.len() {
        if is_of(&log[place], hart) {
            return false;
        }
    }
    true
}

// Moves past an access in its bank's log, if it is the hart's next one there.
fn pass<A: Allocator>(
    places: &mut Places,
    banks: &[Bank<A>],
    hart: usize,
    access: &LoggedAccess,
) -> bool
    requires { length banks.now ≡ most_banks }
    ensures { Passes (bank_logs banks.now) hart places.old places.new (access.now ∷ []) result }
{
    let bank = (access.word / 4 % BANKS) as usize;
    match place_behind(banks[bank].log(), hart, places[bank], access) {
        Some(place) => {
            places[bank] = place;
            true
        }
        None => false,
    }
}

// Moves past an access, if there is one.
fn pass_if<A: Allocator>(
    places: &mut Places,
    banks: &[Bank<A>],
    hart: usize,
    access: Option<LoggedAccess>,
) -> bool
    requires { length banks.now ≡ most_banks }
    ensures { Passes (bank_logs banks.now) hart places.old places.new (option_to_list access) result }
{
    match access {
        Some(access) => pass(places, banks, hart, &access),
        None => true,
    }
}

// Moves past the accesses of a segment.
fn pass_segment<A: Allocator>(
    places: &mut Places,
    banks: &[Bank<A>],
    hart: usize,
    segment: &LogSegment,
) -> bool
    requires { length banks.now ≡ most_banks }
    ensures { Passes (bank_logs banks.now) hart places.old places.new segment.now.accesses result }
{
    pass_if(places, banks, hart, segment.code_read)
        && pass_if(places, banks, hart, segment.data_access)
}

/// Moves past the accesses of segments.
pub(crate) fn pass_all<A: Allocator>(
    places: &mut Places,
    banks: &[Bank<A>],
    hart: usize,
    segments: &[LogSegment],
) -> bool
    requires { length banks.now ≡ most_banks }
    ensures { Passes (bank_logs banks.now) hart places.old places.new (accesses segments.now) result }
{
    'segments: for segment in segments {
        if !pass_segment(places, banks, hart, segment) {
            return false;
        }
    }
    true
}

/// Whether the banks have no access of a hart from these places on.
pub(crate) fn are_passed<A: Allocator>(places: &Places, banks: &[Bank<A>], hart: usize) -> bool
    requires { length banks.now ≡ most_banks }
    ensures { (result ≡ true) ↔ AreLeft (bank_logs banks.now) hart places.now [] }
{
    'banks: for bank in 0..BANKS as usize {
        if !has_none(banks[bank].log(), hart, places[bank]) {
            return false;
        }
    }
    true
}
