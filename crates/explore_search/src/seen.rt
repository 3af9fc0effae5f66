//! The keys that a search has seen.
ghost use Rattle.std.specs.Prelude.{◌≡◌, ℕ, ◌+◌, ◌<◌, List, Some, IfOk, OnOk, length, slice_get};
ghost use Rattle.std.specs.List.{All, Contains};
ghost use Rattle.machine.specs.declared.choice.Choice.{Choice as ChoiceValue};
ghost use Rattle.explore_laws.specs.Places.{Place, place_after, place_reached};
ghost use Rattle.explore_search.specs.Searched.{AreReached, IsSeen, IsSoon, AreRising, GoesOn};
ghost use Rattle.explore_search.specs.Edges.{IsNumberOf};
ghost use Rattle.explore_search.specs.declared.seen.Link.{Link as LinkValue};

use crate::space::Space;
use explore_table::{Rows, Table};
use machine::Choice;
use std::alloc::{AllocError, Allocator};

/// How a key was found: by a choice from an earlier one. There is one for each place, so it has 12
/// bytes, and names the choice by its number.
#[derive(Clone, Copy)]
pub struct Link {
    /// The earlier key's number.
    pub from: u32,
    /// How many choices lead here.
    pub steps: u32,
    /// The choice's number in the list of choices that the search was given.
    pub turn: u32,
}

/// The keys of the places that were seen, and how each was found.
#[derive(Drop)]
pub struct Seen<A: Allocator> {
    /// The keys, in the order in which they were found.
    pub keys: Table<A>,
    /// For each key how it was found; the first one's tells nothing.
    pub links: Vec<Link, A>,
    /// For each key the numbers of the keys of the places that the choices lead to from its place,
    /// in their order; nothing where these aren't kept.
    pub rows: Rows<A>,
}

impl<A: Allocator> Seen<A> {
    /// Sees the place that one choice leads to from a key's, and returns the number of its key.
    /// `next` is room for that key.
    pub fn see_after<S: Space<A>>(
        &mut self,
        space: &mut S,
        choices: &[Choice],
        key: &[u32],
        link: Link,
        next: &mut Vec<u32, A>,
    ) -> Result<usize, AllocError>
        requires reached { AreReached (S.is_key space.old) (S.place space.old) (S.first space.old) choices.now
            self.old.keys self.old.links.items }
        requires there { slice_get self.old.keys link.from ≡ Some key.now }
        requires meant { link.turn < length choices.now }
        requires rising { AreRising self.old.links.items link.from }
        requires step { (a : LinkValue) → slice_get self.old.links.items link.from ≡ Some a → link.steps ≡ a.steps + 1 }
        ensures reached { OnOk result (AreReached (S.is_key space.new) (S.place space.new) (S.first space.old) choices.now
            self.new.keys self.new.links.items) }
        ensures seen { OnOk result ((c : ChoiceValue) → slice_get choices.now link.turn ≡ Some c
            → IsSeen (S.place space.new) self.new.keys (place_after (S.place space.old key.now) c)) }
        ensures number { IfOk result (λ number. (c : ChoiceValue) → slice_get choices.now link.turn ≡ Some c
            → IsNumberOf (S.place space.new) self.new.keys number (place_after (S.place space.old key.now) c)) }
        ensures rows { self.new.rows ≡ self.old.rows }
        ensures soon { OnOk result ((c : ChoiceValue) → slice_get choices.now link.turn ≡ Some c
            → IsSoon (S.place space.new) self.new.keys self.new.links.items link.steps
            (place_after (S.place space.old key.now) c)) }
        ensures rising { OnOk result (AreRising self.new.links.items link.from) }
        ensures links_begin { OnOk result (GoesOn self.old.links.items self.new.links.items) }
        ensures begins { OnOk result (GoesOn self.old.keys self.new.keys) }
        ensures kept { (k : List ℕ) → S.is_key space.old k
            → S.is_key space.new k × (S.place space.new k ≡ S.place space.old k) }
        ensures first { S.first space.new ≡ S.first space.old }
        ensures bad { S.bad space.new ≡ S.bad space.old }
    {
        space.key_after(key, choices[link.turn as usize], next)?;
        let number = self.keys.add(next)?;
        if number == self.links.len() {
            self.links.push(link)?;
        }
        Ok(number)
    }

    /// The choices that lead to a key's place.
    pub fn path_to<S: Space<A>>(
        &self,
        alloc: A,
        space: &S,
        choices: &[Choice],
        number: usize,
    ) -> Result<Vec<Choice, A>, AllocError>
    where
        A: Copy,
        requires reached { AreReached (S.is_key space.now) (S.place space.now) (S.first space.now) choices.now
            self.now.keys self.now.links.items }
        requires there { number < length self.now.keys }
        requires rising { (n : ℕ) × AreRising self.now.links.items n }
        ensures steps { IfOk result (λ path. (a : LinkValue) → slice_get self.now.links.items number ≡ Some a
            → length path.items ≡ a.steps) }
        ensures meant { IfOk result (λ path. All (Contains choices.now) path.items) }
        ensures leads { IfOk result (λ path. (key : List ℕ) → slice_get self.now.keys number ≡ Some key
            → place_reached (S.first space.now) path.items ≡ S.place space.now key) }
    {
        let _ = space;
        let mut path = Vec::new(alloc);
        let mut at = number;
        'back: while at > 0 {
            let link = self.links[at];
            path.push(choices[link.turn as usize])?;
            at = link.from as usize;
        }
        path.reverse();
        Ok(path)
    }
}
