//! What is kept of steps of a thread alone.
ghost use Rattle.std.specs.Prelude.{◌≡◌, ◌++◌, ◌∷◌, [], OnOk, OnErr};
ghost use Rattle.debug_session.specs.Stops.{has};
ghost use Rattle.gdb_moves.specs.After.{alone_of, same_way, begin_of, passed_of, own_choice, with_own};

use crate::stop::{StopReason, ThreadStop};
use std::alloc::{AllocError, Allocator};

/// The way that a move goes.
#[derive(Clone, Copy)]
pub enum Way {
    /// To later positions.
    Forwards,
    /// To earlier positions.
    Backwards,
}

/// Steps of one thread alone, one behind the other and all the same way. The next move of all
/// threads that way begins where these began, and passes their own choices.
#[derive(Drop)]
pub struct AloneSteps<A: Allocator + Copy> {
    /// The way that they went.
    pub way: Way,
    /// The position at which the first one began.
    pub begin: usize,
    /// The index, from 0, of each choice that is a step of theirs; the others' choices between
    /// aren't in.
    pub own: Vec<usize, A>,
}

// Whether two ways are the same.
fn is_same(one: Way, other: Way) -> bool
    ensures { result ≡ same_way one other }
{
    match (one, other) {
        (Way::Forwards, Way::Forwards) => true,
        (Way::Backwards, Way::Backwards) => true,
        _ => false,
    }
}

impl<A: Allocator + Copy> AloneSteps<A> {
    /// Steps that begin at a position; none is made yet.
    pub fn new(alloc: A, way: Way, begin: usize) -> AloneSteps<A>
        ensures { alone_of result ≡ record { way = way; begin = begin; own = [] } }
    {
        AloneSteps {
            way,
            begin,
            own: Vec::new(alloc),
        }
    }

    /// Adds the own choice of one more step, by its index from 0. Fails when out of memory.
    pub fn add(&mut self, choice: usize) -> Result<(), AllocError>
        ensures ok { OnOk result (alone_of self.new
            ≡ record (alone_of self.old) { own = (alone_of self.old).own ++ choice ∷ [] }) }
        ensures err { OnErr result (alone_of self.new ≡ alone_of self.old) }
    {
        self.own.push(choice)?;
        Ok(())
    }

    /// Adds the own choice of one more step, if it has one. Fails when out of memory.
    pub fn add_if(&mut self, choice: Option<usize>) -> Result<(), AllocError>
        ensures ok { OnOk result (alone_of self.new ≡ with_own (alone_of self.old) choice) }
        ensures err { OnErr result (alone_of self.new ≡ alone_of self.old) }
    {
        match choice {
            Some(choice) => self.add(choice),
            None => Ok(()),
        }
    }

    /// Whether these steps went this way.
    pub fn goes(&self, way: Way) -> bool
        ensures { result ≡ same_way way (alone_of self.now).way }
    {
        is_same(way, self.way)
    }

    /// Where a move of all threads this way begins that is made at a position: where these steps
    /// began if they went the same way.
    pub fn begin_of(&self, way: Way, position: usize) -> usize
        ensures { result ≡ begin_of way (alone_of self.now) position }
    {
        if is_same(way, self.way) {
            self.begin
        } else {
            position
        }
    }

    /// The choices that a move of all threads this way passes: the own ones of these steps if they
    /// went the same way.
    pub fn passed_of(&self, way: Way) -> &[usize]
        ensures { result.now ≡ passed_of way (alone_of self.now) }
    {
        if is_same(way, self.way) {
            &self.own
        } else {
            &[]
        }
    }
}

/// The own choice of a step alone that stopped at a position, by its index from 0; `None` if a hit
/// of the thread came before its step, or if it has none.
pub fn own_choice(way: Way, position: usize, stop: Option<ThreadStop>) -> Option<usize>
    ensures { result ≡ own_choice way position stop }
{
    let stop = stop?;
    match (way, stop.reason) {
        (Way::Forwards, StopReason::Done | StopReason::Fault(_)) => {
            Some(position.saturating_sub(1))
        }
        (Way::Backwards, StopReason::Ready) => Some(position),
        _ => None,
    }
}

/// Whether a choice is in a list of choices.
pub fn is_own(own: &[usize], choice: usize) -> bool
    ensures { result ≡ has own.now choice }
{
    own.iter().any(|other| *other == choice)
}
