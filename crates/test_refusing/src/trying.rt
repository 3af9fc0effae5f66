//! A call with each of its requests refused.
use crate::{Refusing, Shortage};
use std::alloc::{AllocError, Allocator, Global};

/// A call that asks for memory.
pub trait Call {
    /// Makes the call: whether it gave its full answer, or that it told want of memory and left all
    /// as it was. What it writes is kept by `host`, whose memory is ample.
    fn answer<A: Allocator + Copy>(&self, alloc: A, host: Global) -> Result<bool, AllocError>;
}

/// What is wrong with a call.
#[derive(Clone, Copy, Debug, PartialEq, Eq, Drop)]
pub enum Wrong {
    /// It asks for no memory.
    AsksForNone,
    /// Where memory is short behind so many requests, it gave something else than its full answer
    /// or want of memory; or it tells of want where none was refused.
    Behind(Shortage, u64),
    /// It asks for memory without end.
    Endless(Shortage),
}

// More requests than a call makes.
const MOST: u64 = 3000;

// How many requests a call makes: it is made with each of them refused in turn, until none is left
// to refuse.
fn requests_of<C: Call>(host: Global, call: &C, shortage: Shortage) -> Result<u64, Wrong> {
    for passed in 0..MOST {
        let heap = Refusing::of(host, passed, shortage);
        let is_right = match call.answer(&heap, host) {
            Ok(is_full) => is_full,
            Err(AllocError) => heap.refused(),
        };
        if !is_right {
            return Err(Wrong::Behind(shortage, passed));
        }
        if !heap.refused() {
            return Ok(passed);
        }
    }
    Err(Wrong::Endless(shortage))
}

/// Makes a call with each of its requests refused in turn, once and for good, until it is made with
/// none refused, and says what is wrong with it.
pub fn tried<C: Call>(host: Global, call: &C) -> Result<(), Wrong> {
    for shortage in Shortage::BOTH {
        if requests_of(host, call, shortage)? == 0 {
            return Err(Wrong::AsksForNone);
        }
    }
    Ok(())
}

#[cfg(test)]
mod tests {
    use super::*;

    // How a call answers want of memory.
    #[derive(Clone, Copy, Debug)]
    enum Manner {
        // It tells it, and gives its full answer where none is refused.
        Tells,
        // It gives another answer.
        Hides,
        // It always tells it.
        Refuses,
        // It asks for no memory.
        Idles,
    }

    impl Call for Manner {
        fn answer<A: Allocator + Copy>(&self, alloc: A, _host: Global) -> Result<bool, AllocError> {
            if let Manner::Idles = self {
                return Ok(true);
            }
            let is_kept = Box::new(alloc, 7u64).is_ok() && Box::new(alloc, 8u64).is_ok();
            match self {
                Manner::Tells if is_kept => Ok(true),
                Manner::Hides => Ok(is_kept),
                _ => Err(AllocError),
            }
        }
    }

    #[test]
    fn calls_are_tried(rt: HostRuntime) {
        for (call, wanted) in [
            (Manner::Tells, Ok(())),
            (Manner::Hides, Err(Wrong::Behind(Shortage::Once, 0))),
            (Manner::Refuses, Err(Wrong::Behind(Shortage::Once, 2))),
            (Manner::Idles, Err(Wrong::AsksForNone)),
        ] {
            assert_eq!(rt; tried(rt.alloc(), &call), wanted, "{call:?}");
        }
    }
}
