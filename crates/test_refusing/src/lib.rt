//! An allocator for tests that refuses one request, or that and all behind it, so that a test can
//! let each request of a call fail in turn.
#![tactic(auto)]

pub use trying::{Call, Wrong, tried};

mod trying;

use std::alloc::{AllocError, Allocator};
use std::sync::atomic::{AtomicU64, Ordering};

/// What is refused, once so many requests have been passed on.
#[derive(Clone, Copy, Debug, PartialEq, Eq)]
pub enum Shortage {
    /// The next one alone, as where another program gives memory back.
    Once,
    /// The next one and all behind it, as where memory is used up.
    ForGood,
}

impl Shortage {
    /// Both of them.
    pub const BOTH: [Shortage; 2] = [Shortage::Once, Shortage::ForGood];
}

/// Passes requests on to `inner`, but refuses the one that comes after a given number of others,
/// and where it is asked to all behind it. Several threads may share it. `&Refusing<B>` is an
/// allocator that can be copied.
pub struct Refusing<B: Allocator> {
    inner: B,
    // Twice the number of requests that are still passed on, and 1 more where the refusal is for
    // good: one cell for both, so that threads agree on the first request that is refused. It goes
    // below 0, and so to the largest numbers, at that request.
    left: AtomicU64,
}

impl<B: Allocator> Refusing<B> {
    /// Passes on `passed` requests, fewer than 2^62, refuses the next one, and passes on all that
    /// follow it.
    pub fn new(inner: B, passed: u64) -> Refusing<B> {
        Refusing::of(inner, passed, Shortage::Once)
    }

    /// Passes on `passed` requests, fewer than 2^62, and refuses as `shortage` says.
    pub fn of(inner: B, passed: u64, shortage: Shortage) -> Refusing<B> {
        let left = match shortage {
            Shortage::Once => passed.wrapping_mul(2),
            Shortage::ForGood => passed.wrapping_mul(2).wrapping_add(1),
        };
        Refusing {
            inner,
            left: AtomicU64::new(left),
        }
    }

    /// Whether a request has been refused.
    pub fn refused(&self) -> bool {
        is_past(self.left.load(Ordering::SeqCst))
    }
}

// Whether a count has gone below 0.
fn is_past(left: u64) -> bool {
    u64::MAX / 2 < left
}

impl<B: Allocator> Drop for Refusing<B> {
    fn drop(self) {
        let Self { inner: _, left: _ } = self;
    }
}

// Counts a request, and says whether it is to be refused.
fn refuses(left: &AtomicU64) -> bool {
    let before = left.fetch_sub(2, Ordering::SeqCst);
    before < 2 || (is_past(before) && before % 2 == 1)
}

unsafe impl<B: Allocator> Allocator for Refusing<B> {
    ghost dealloc_token = { λ heap ty ptr. B.dealloc_token heap.inner ty ptr };

    fn allocate(&self, size: usize, align: usize) -> Result<*mut u8, AllocError> {
        if refuses(&self.left) {
            return Err(AllocError);
        }
        self.inner.allocate(size, align)
    }

    unsafe fn deallocate(&self, ptr: *mut u8, size: usize, align: usize) {
        self.inner.deallocate(ptr, size, align);
    }
}

#[cfg(test)]
mod tests {
    use super::*;

    #[test]
    fn one_request_is_refused(rt: HostRuntime) {
        for passed in 0..3u64 {
            let heap = Refusing::new(rt.alloc(), passed);
            for request in 0..4u64 {
                assert_eq!(rt;
                    heap.refused(),
                    passed < request,
                    "before request {request}"
                );
                let answer = Box::new(&heap, request);
                assert_eq!(rt;
                    answer.is_ok(),
                    request != passed,
                    "request {request} of {passed}"
                );
            }
        }
    }

    #[test]
    fn all_requests_behind_one_are_refused(rt: HostRuntime) {
        for passed in 0..3u64 {
            let heap = Refusing::of(rt.alloc(), passed, Shortage::ForGood);
            for request in 0..4u64 {
                assert_eq!(rt;
                    heap.refused(),
                    passed < request,
                    "before request {request}"
                );
                let answer = Box::new(&heap, request);
                assert_eq!(rt;
                    answer.is_ok(),
                    request < passed,
                    "request {request} of {passed}"
                );
            }
        }
    }
}
