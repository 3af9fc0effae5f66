//! Logs filled by hand: stamps, and which logs are merged.
use crate::merging::{Lack, by_hand};
use crate::programs::{ADDITIONS, STORES};
use bank_hart_log::HartLog;
use bank_laws::{LoggedAccess, LoggedKind};
use bank_memory::{Bank, next_stamp};
use bank_merge::{MergeFault, merge};
use bank_order::LogSegment;
use image::Image;
use std::alloc::{AllocError, Allocator};
use test_images::{Program, program_image};

/// The first store of the hart of `STORES` with the input 7.
#[rattlefmt::skip]
pub const FIRST: LoggedAccess = LoggedAccess {
    stamp: 1, hart: 0, kind: LoggedKind::Store, word: 0, before: [0, 0, 0, 0], after: [7, 0, 0, 0],
    mark: false,
};

/// The second.
pub const SECOND: LoggedAccess = LoggedAccess {
    stamp: 2,
    before: [7, 0, 0, 0],
    ..FIRST
};

/// A segment of one step.
pub fn segment(stamp: u64, data_access: Option<LoggedAccess>) -> LogSegment {
    LogSegment {
        stamp,
        hart: 0,
        local: 0,
        refuse: false,
        code_read: None,
        data_access,
    }
}

// The last stamp.
const LAST: u64 = u64::MAX - 1;

// The last stamp of a hart, those of banks, and the next one.
const STAMPS: [(u64, &[u64], Option<u64>); 6] = [
    (3, &[5, 1], Some(6)),
    (7, &[5, 1], Some(8)),
    (0, &[], Some(1)),
    (LAST - 1, &[], Some(LAST)),
    (LAST, &[], None),
    (0, &[1, LAST], None),
];

#[test]
fn stamps_follow(rt: HostRuntime) {
    for (own, banks, wanted) in &STAMPS {
        assert!(rt; next_stamp(*own, banks) == *wanted, "{own}");
    }
}

// The two segments of a program's one hart, each a stamp and an access; the accesses of its banks;
// and why they aren't merged.
struct Row {
    name: &'static str,
    program: Program,
    first: (u64, Option<LoggedAccess>),
    second: (u64, Option<LoggedAccess>),
    accesses: &'static [LoggedAccess],
    fault: Option<MergeFault>,
}

#[rattlefmt::skip]
const ROWS: [Row; 8] = [
    Row { name: "two additions", program: ADDITIONS, first: (1, None), second: (2, None),
        accesses: &[], fault: None },
    Row { name: "the last stamps", program: ADDITIONS, first: (LAST - 1, None),
        second: (LAST, None), accesses: &[], fault: None },
    Row { name: "equal stamps", program: ADDITIONS, first: (2, None), second: (2, None),
        accesses: &[], fault: Some(MergeFault::OutOfOrder) },
    Row { name: "falling stamps", program: ADDITIONS, first: (3, None), second: (2, None),
        accesses: &[], fault: Some(MergeFault::OutOfOrder) },
    Row { name: "two stores", program: STORES, first: (1, Some(FIRST)), second: (2, Some(SECOND)),
        accesses: &[FIRST, SECOND], fault: None },
    Row { name: "a store in the hart's log alone", program: STORES, first: (1, Some(FIRST)),
        second: (2, Some(SECOND)), accesses: &[FIRST], fault: Some(MergeFault::Unmatched) },
    Row { name: "a store in the bank's log alone", program: ADDITIONS, first: (1, None),
        second: (2, None), accesses: &[FIRST], fault: Some(MergeFault::Unmatched) },
    Row { name: "the same with equal stamps", program: ADDITIONS, first: (2, None),
        second: (2, None), accesses: &[FIRST], fault: Some(MergeFault::Unmatched) },
];

// Number of choices of a row's merged logs.
fn count_merged<A: Allocator + Copy>(alloc: A, row: &Row) -> Result<usize, Lack> {
    let Ok(image) = program_image(alloc, row.program) else {
        return Err(Lack::Memory);
    };
    let first = segment(row.first.0, row.first.1);
    let second = segment(row.second.0, row.second.1);
    let hand = by_hand(alloc, &image, &[7], first, second, row.accesses)?;
    let choices = merge(alloc, &hand.logs, &hand.banks)?;
    Ok(choices.len())
}

#[test]
fn logs_by_hand_are_merged_where_they_match(rt: HostRuntime) {
    for row in &ROWS {
        let wanted = match row.fault {
            None => Ok(2),
            Some(fault) => Err(Lack::Merged(fault)),
        };
        assert!(rt; count_merged(rt.alloc(), row) == wanted, "{}", row.name);
    }
}

// The first store with the last stamp.
const AT_LAST: LoggedAccess = LoggedAccess {
    stamp: LAST,
    ..FIRST
};

// Whether a hart after the last stamp has no next one.
fn hart_has_no_next<A: Allocator + Copy>(alloc: A, image: &Image<A>) -> bool {
    let mut log = HartLog::new(alloc, image, &[7], 0);
    log.add(segment(LAST, Some(AT_LAST))).is_ok() && next_stamp(log.last_stamp(), &[]).is_none()
}

// Whether there is no next stamp for a hart that accesses a bank after the last one.
fn bank_has_no_next<A: Allocator + Copy>(alloc: A, image: &Image<A>) -> bool {
    let mut bank = Bank::new(alloc, image, &[7], 0);
    bank.add(AT_LAST).is_ok() && next_stamp(0, &[bank.last_stamp()]).is_none()
}

#[test]
fn nothing_comes_behind_the_last_stamp(rt: HostRuntime) -> Result<(), AllocError> {
    let image = program_image(rt.alloc(), STORES)?;
    assert!(rt; hart_has_no_next(rt.alloc(), &image) && bank_has_no_next(rt.alloc(), &image));
    Ok(())
}
