//! Places under keys.
ghost use Rattle.std.specs.Prelude.{◌≡◌, ℕ, Bool, List, IfOk, OnOk};
ghost use Rattle.explore_laws.specs.Places.{Place, place_after};
ghost use Rattle.explore_search.specs.Searched.{KeysDiffer};

use machine::Choice;
use std::alloc::{AllocError, Allocator};

/// Places under keys: a key is a row of words, what it stands for never changes, and different keys
/// stand for different places.
pub trait Space<A: Allocator> {
    /// Whether a row of words is a key.
    ghost is_key: { Self → List ℕ → Type 0 };

    /// The place that a key stands for.
    ghost place: { Self → List ℕ → Place };

    /// The place before any choice.
    ghost first: { Self → Place };

    /// Whether a place must not be reached.
    ghost bad: { Self → Place → Bool };

    /// Whether a place has ended.
    ghost ended: { Self → Place → Bool };

    /// The key of the first place. Keys from before may stand for nothing from now on.
    fn first_key(&mut self) -> Result<Vec<u32, A>, AllocError>
        ensures key { IfOk result (λ k. is_key self.new k.items × (place self.new k.items ≡ first self.old)) }
        ensures differ { KeysDiffer (is_key self.new) (place self.new) }
        ensures first { first self.new ≡ first self.old }
        ensures bad { bad self.new ≡ bad self.old };

    /// Writes the key of the place that is one choice further into `next`, whatever stood there.
    fn key_after(
        &mut self,
        key: &[u32],
        choice: Choice,
        next: &mut Vec<u32, A>,
    ) -> Result<(), AllocError>
        requires { is_key self.old key.now }
        ensures key { OnOk result (is_key self.new next.new.items
            × (place self.new next.new.items ≡ place_after (place self.old key.now) choice)) }
        ensures kept { (k : List ℕ) → is_key self.old k → is_key self.new k × (place self.new k ≡ place self.old k) }
        ensures differ { KeysDiffer (is_key self.new) (place self.new) }
        ensures first { first self.new ≡ first self.old }
        ensures bad { bad self.new ≡ bad self.old };

    /// Whether a key's place must not be reached. The only error is out of memory.
    fn is_bad(&self, key: &[u32]) -> Result<bool, AllocError>
        requires { is_key self.now key.now }
        ensures { IfOk result (λ answer. answer ≡ bad self.now (place self.now key.now)) };

    /// Whether a key's place has ended. The only error is out of memory.
    fn has_ended(&self, key: &[u32]) -> Result<bool, AllocError>
        requires { is_key self.now key.now }
        ensures { IfOk result (λ answer. answer ≡ ended self.now (place self.now key.now)) };
}
