//! A bank logs accesses that find what it has, and no others.
use crate::bank_histories::{FIRST, OTHER, TWO_WORDS, WORD, access};
use bank_laws::{LoggedAccess, LoggedKind};
use bank_memory::{AddFault, Bank, next_stamp};
use bank_order::{LogSegment, is_rising};
use std::alloc::{AllocError, Global};
use test_images::image_of;

// Adds accesses, and returns whether each was logged.
fn are_taken(bank: &mut Bank<Global>, accesses: &[LoggedAccess]) -> bool {
    'accesses: for access in accesses {
        if bank.add(*access).is_err() {
            return false;
        }
    }
    true
}

#[test]
fn store_of_the_same_value_ends_a_mark(rt: HostRuntime) -> Result<(), AllocError> {
    let image = image_of(rt.alloc(), WORD, &TWO_WORDS)?;
    let mut bank = Bank::new(rt.alloc(), &image, &[7, 9], 0);
    assert!(rt; bank.bytes(WORD) == FIRST);
    assert!(rt; bank.last_stamp() == 0);
    let first = [
        access(1, 0, LoggedKind::Store, FIRST, OTHER),
        access(2, 1, LoggedKind::LoadReserved, OTHER, OTHER),
    ];
    assert!(rt; are_taken(&mut bank, &first));
    assert!(rt; bank.marks().holds(1, WORD));
    let same = [access(3, 0, LoggedKind::Store, OTHER, OTHER)];
    assert!(rt; are_taken(&mut bank, &same));
    assert!(rt; !bank.marks().holds(1, WORD));
    assert!(rt; bank.bytes(WORD) == OTHER);
    assert!(rt; bank.last_stamp() == 3);
    assert!(rt; bank.log().len() == 3);
    assert!(rt; next_stamp(1, &[bank.last_stamp(), 0]) == Some(4));
    Ok(())
}

#[test]
fn what_a_bank_does_not_have_is_not_taken(rt: HostRuntime) -> Result<(), AllocError> {
    let image = image_of(rt.alloc(), WORD, &TWO_WORDS)?;
    let mut bank = Bank::new(rt.alloc(), &image, &[7, 9], 0);
    let first = [access(5, 0, LoggedKind::Load, FIRST, FIRST)];
    assert!(rt; are_taken(&mut bank, &first));
    let rows = [
        ("other bytes", access(6, 0, LoggedKind::Load, OTHER, OTHER)),
        (
            "a mark that doesn't stand",
            LoggedAccess {
                mark: true,
                ..access(6, 0, LoggedKind::ConditionalStored, FIRST, OTHER)
            },
        ),
        (
            "a word of bank 1",
            LoggedAccess {
                word: WORD + 4,
                ..access(6, 0, LoggedKind::Load, [0; 4], [0; 4])
            },
        ),
        (
            "an address that is no word's",
            LoggedAccess {
                word: WORD + 1,
                ..access(6, 0, LoggedKind::Load, FIRST, FIRST)
            },
        ),
        ("a third hart", access(6, 2, LoggedKind::Load, FIRST, FIRST)),
        (
            "a lower stamp",
            access(4, 1, LoggedKind::Load, FIRST, FIRST),
        ),
        (
            "an equal stamp",
            access(5, 1, LoggedKind::Load, FIRST, FIRST),
        ),
    ];
    for (name, row) in rows {
        assert!(rt; bank.add(row) == Err(AddFault::Mismatch), "{name}");
    }
    assert!(rt; bank.log().len() == 1);
    Ok(())
}

// A segment of hart 0 without accesses.
fn segment(stamp: u64) -> LogSegment {
    LogSegment {
        stamp,
        hart: 0,
        local: 0,
        refuse: false,
        code_read: None,
        data_access: None,
    }
}

#[test]
fn equal_stamps_do_not_rise(rt: HostRuntime) {
    assert!(rt; is_rising(&[segment(1), segment(3), segment(4)]));
    assert!(rt; !is_rising(&[segment(2), segment(2)]));
    assert!(rt; is_rising(&[]));
}
