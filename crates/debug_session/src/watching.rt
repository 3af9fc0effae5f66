//! Words are watched, and watches are hit.
ghost use Rattle.std.specs.Prelude.{◌≡◌, ◌%◌, IfSome, OnOk, OnErr};
ghost use Rattle.hart_reservations.specs.Marks.{word_of};
ghost use Rattle.debug_session.specs.Points.{with_address, watched_words, no_words, with_watched, without_watched};
ghost use Rattle.debug_session.specs.Stops.{watched, hit_at, hit_for};

use crate::stop::{WatchHit, WatchKind};
use crate::touching::if_reads;
use crate::watches::Watches;
use hart_step::Access;
use std::alloc::{AllocError, Allocator};
use std::collections::BTreeSet;

// Puts an address in, unless it is.
fn add<A: Allocator + Copy>(words: &mut BTreeSet<u32, A>, word: u32) -> Result<(), AllocError>
    ensures ok { OnOk result (words.new.keys ≡ with_address words.old.keys word) }
    ensures err { OnErr result (words.new.keys ≡ words.old.keys) }
{
    match words.insert(word) {
        Ok(_) => Ok(()),
        Err(_) => Err(AllocError),
    }
}

// The word of an access, if it is among some.
fn watched<A: Allocator + Copy>(words: &BTreeSet<u32, A>, access: Option<Access>) -> Option<u32>
    ensures word { result ≡ watched words.now.keys access }
    ensures aligned { IfSome result (λ a. a % 4 ≡ 0) }
{
    let access = access?;
    let word = access.address - access.address % 4;
    if words.contains(&word) {
        Some(word)
    } else {
        None
    }
}

// The hit of a watch at a word, if there is a word.
fn hit_at(kind: WatchKind, word: Option<u32>) -> Option<WatchHit>
    ensures { result ≡ hit_at kind word }
{
    let address = word?;
    Some(WatchHit { kind, address })
}

impl<A: Allocator + Copy> Watches<A> {
    /// None.
    pub(crate) fn new(alloc: A) -> Watches<A>
        ensures { watched_words result ≡ no_words }
    {
        Watches {
            changes: BTreeSet::new(alloc),
            reads: BTreeSet::new(alloc),
            accesses: BTreeSet::new(alloc),
        }
    }

    /// Watches the aligned word of an address, unless it is watched in this way.
    #[tactic(auto, using(crate::proofs::PointLemmas::aligned_after))]
    pub(crate) fn add(&mut self, kind: WatchKind, address: u32) -> Result<(), AllocError>
        ensures ok { OnOk result (watched_words self.new
            ≡ with_watched kind (watched_words self.old) (word_of address)) }
        ensures err { OnErr result (watched_words self.new ≡ watched_words self.old) }
    {
        match kind {
            WatchKind::Change => add(&mut self.changes, address - address % 4),
            WatchKind::Read => add(&mut self.reads, address - address % 4),
            WatchKind::Access => add(&mut self.accesses, address - address % 4),
        }
    }

    /// Watches the aligned word of an address no more.
    #[tactic(auto, using(crate::proofs::PointLemmas::aligned_without))]
    pub(crate) fn remove(&mut self, address: u32)
        ensures { watched_words self.new
            ≡ without_watched (watched_words self.old) (word_of address) }
    {
        let word = address - address % 4;
        self.changes.remove(&word);
        self.reads.remove(&word);
        self.accesses.remove(&word);
    }

    /// The word of an access, if it is watched for changes.
    pub(crate) fn may_change(&self, access: Option<Access>) -> Option<u32>
        ensures word { result ≡ watched (watched_words self.now).changes access }
        ensures aligned { IfSome result (λ a. a % 4 ≡ 0) }
    {
        watched(&self.changes, access)
    }

    /// The hit of a step that has changed a word that is watched for changes, if any, by an access
    /// that took place.
    pub(crate) fn hit(&self, changed: Option<u32>, access: Option<Access>) -> Option<WatchHit>
        ensures { result ≡ hit_for (watched_words self.now) changed access }
    {
        let change = hit_at(WatchKind::Change, changed);
        if change.is_some() {
            return change;
        }
        let read = hit_at(WatchKind::Read, watched(&self.reads, if_reads(access)));
        if read.is_some() {
            return read;
        }
        hit_at(WatchKind::Access, watched(&self.accesses, access))
    }
}
