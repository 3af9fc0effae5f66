//! Gates that make harts wait for each other.
use std::sync::atomic::{AtomicU64, Ordering};
use std::thread;
use thread_gate::Gate;

// How long a hart waits.
const TURNS: u32 = 10_000_000;

/// Holds a hart before each of its segments until the others have reached a number of theirs.
#[derive(Drop)]
pub struct Holding {
    held: u32,
    enough: u64,
    others: AtomicU64,
}

impl Holding {
    /// Holds this hart until the others have reached `enough` segments.
    pub fn new(held: u32, enough: u64) -> Holding {
        Holding {
            held,
            enough,
            others: AtomicU64::new(0),
        }
    }
}

impl Gate for Holding {
    fn arrive(&self, hart: u32, _count: u32) {
        if hart != self.held {
            self.others.fetch_add(1, Ordering::SeqCst);
            return;
        }
        for _ in 0..TURNS {
            if self.others.load(Ordering::SeqCst) >= self.enough {
                return;
            }
            thread::yield_now();
        }
    }
}

/// A place where two harts meet.
#[derive(Clone, Copy)]
pub enum Place {
    /// Before their first segment, where no lock is held.
    Segment,
    /// During each one's access to the bank after that of its number, where its lock is held.
    Bank,
}

/// Holds each of two harts at a place until the other one is there too.
#[derive(Drop)]
pub struct Meeting {
    place: Place,
    came: [AtomicU64; 2],
    met: AtomicU64,
}

impl Meeting {
    /// No hart has come there yet.
    pub fn new(place: Place) -> Meeting {
        Meeting {
            place,
            came: [AtomicU64::new(0), AtomicU64::new(0)],
            met: AtomicU64::new(0),
        }
    }

    /// Number of harts that have met the other one.
    pub fn met(&self) -> u64 {
        self.met.load(Ordering::SeqCst)
    }

    // Waits for the other hart, when this one comes for the first time.
    fn meet(&self, hart: u32) {
        if hart >= 2 || self.came[hart as usize].swap(1, Ordering::SeqCst) == 1 {
            return;
        }
        let other = 1 - hart;
        for _ in 0..TURNS {
            if self.came[other as usize].load(Ordering::SeqCst) == 1 {
                self.met.fetch_add(1, Ordering::SeqCst);
                return;
            }
            thread::yield_now();
        }
    }
}

impl Gate for Meeting {
    fn arrive(&self, hart: u32, _count: u32) {
        if let Place::Segment = self.place {
            self.meet(hart);
        }
    }

    fn held(&self, hart: u32, bank: u32) {
        if let Place::Bank = self.place {
            if bank == hart.wrapping_add(1) {
                self.meet(hart);
            }
        }
    }
}
