//! What is known of a program's worlds.
ghost use Rattle.std.specs.Prelude.{◌≡◌, ◌<◌, List, ℕ, IfOk, OnOk, length};
ghost use Rattle.mem_store.specs.Image.{image_memory, segments_memory};
ghost use Rattle.hart_local.specs.CodeMemory.{code_in};
ghost use Rattle.machine.specs.Start.{started};
ghost use Rattle.explore_laws.specs.OwnSteps.{steps_in_turn};
ghost use Rattle.explore_laws.specs.Places.{place_after};
ghost use Rattle.explore_space.specs.Begun.{turns_start};
ghost use Rattle.explore_space.specs.Habits.{habits_of, stride_by_habit};
ghost use Rattle.explore_space.specs.Memo.{AreTurns};
ghost use Rattle.explore_space.specs.Places.{IsKey, IsKeyOf, KeysStay, place_of_key, world_of_key};

use crate::beginning::begun_key;
use crate::first::first_parts;
use crate::kept::{KeptHarts, KeptShareds};
use crate::memo::Memo;
use crate::settling::LocalCode;
use crate::shared::Shared;
use crate::turning::{refusal_word, steps_from, turned_key};
use crate::word::hart_of_word;
use hart_step::Hart;
use image::Image;
use machine::{Choice, Inputs};
use std::alloc::{AllocError, Allocator};

/// The parts of a program's worlds, and where turns have led from them.
#[derive(Drop)]
pub struct Known<'a, A: Allocator> {
    /// The program.
    pub image: &'a Image<A>,
    /// Its code, the section in which no step is taken at once, and whose words are.
    pub code: &'a LocalCode<A>,
    /// The harts.
    pub harts: KeptHarts<A>,
    /// What harts share.
    pub shareds: KeptShareds<A>,
    turns: Memo<A>,
    ghost its_code: { segments_memory code.now.code ≡ code_in (image_memory image.now) },
    ghost turns_are: { AreTurns (habits_of code.now) image.now harts.parts.items shareds.parts.items turns.keys turns.answers },
}

impl<'a, A: Allocator + Copy> Known<'a, A> {
    /// Nothing is known yet. Fails when out of memory.
    #[tactic(auto, using(crate::proofs::MemoLemmas::no_turns))]
    pub fn new(
        alloc: A,
        image: &'a Image<A>,
        code: &'a LocalCode<A>,
    ) -> Result<Known<'a, A>, AllocError>
        requires { segments_memory code.now.code ≡ code_in (image_memory image.now) }
        ensures image { IfOk result (λ known. known.image.now ≡ image.now) }
        ensures code { IfOk result (λ known. known.code.now ≡ code.now) }
    {
        let harts = KeptHarts::new(alloc)?;
        let shareds = KeptShareds::new(alloc)?;
        let turns = Memo::new(alloc)?;
        Ok(Known {
            image,
            code,
            harts,
            shareds,
            turns,
        })
    }

    /// The key of the place in which turns start; nothing else is known then.
    #[tactic(auto, using(crate::proofs::MemoLemmas::no_turns))]
    pub fn begin(&mut self, alloc: A, inputs: &Inputs) -> Result<Vec<u32, A>, AllocError>
        ensures key { IfOk result (λ key. IsKeyOf (habits_of self.new.code.now) self.new.image.now (length inputs.now) self.new.harts.parts.items
            self.new.shareds.parts.items key.items
            (turns_start (habits_of self.old.code.now) (started self.old.image.now inputs.now))) }
        ensures image { self.new.image.now ≡ self.old.image.now }
        ensures code { self.new.code.now ≡ self.old.code.now }
    {
        self.turns = Memo::new(alloc)?;
        let key = first_parts(
            alloc,
            self.image,
            inputs,
            &mut self.harts,
            &mut self.shareds,
        )?;
        begun_key(
            alloc,
            self.image,
            self.code,
            inputs,
            &mut self.harts,
            &self.shareds.parts,
            key,
        )
    }

    /// Writes the key of the place that is one turn of a hart further into `next`.
    pub fn key_after(
        &mut self,
        alloc: A,
        count: usize,
        key: &[u32],
        turn: Choice,
        next: &mut Vec<u32, A>,
    ) -> Result<(), AllocError>
        requires { IsKey self.old.image.now count self.old.harts.parts.items self.old.shareds.parts.items key.now }
        ensures key { OnOk result (IsKeyOf (habits_of self.old.code.now) self.old.image.now count self.new.harts.parts.items
            self.new.shareds.parts.items next.new.items (place_after (place_of_key (habits_of self.old.code.now) self.old.image.now count
            self.old.harts.parts.items self.old.shareds.parts.items key.now) turn)) }
        ensures kept { KeysStay (habits_of self.old.code.now) self.old.image.now count self.old.harts.parts.items self.old.shareds.parts.items
            self.new.harts.parts.items self.new.shareds.parts.items }
        ensures image { self.new.image.now ≡ self.old.image.now }
        ensures code { self.new.code.now ≡ self.old.code.now }
    {
        turned_key(
            alloc,
            self.image,
            self.code,
            count,
            &mut self.harts,
            &mut self.shareds,
            &mut self.turns,
            key,
            turn,
            next,
        )
    }

    /// How many steps a turn's hart takes in it from a key's place. Fails when out of memory.
    pub fn steps_in(
        &self,
        alloc: A,
        inputs: &Inputs,
        key: &[u32],
        turn: Choice,
    ) -> Result<u32, AllocError>
        requires { IsKey self.now.image.now (length inputs.now) self.now.harts.parts.items self.now.shareds.parts.items key.now }
        ensures { IfOk result (λ steps. steps ≡ steps_in_turn (stride_by_habit (habits_of self.now.code.now)) (world_of_key self.now.image.now
            (length inputs.now) self.now.harts.parts.items self.now.shareds.parts.items key.now) turn.hart turn) }
    {
        let count = inputs.harts() as usize;
        let number = turn.hart as usize;
        if number >= count {
            return Ok(0);
        }
        let (hart, shared) = (hart_of_word(key[number]), key[count]);
        let words = [hart, shared, turn.hart, refusal_word(turn)];
        if let Some([_, _, steps]) = self.turns.find(&words) {
            return Ok(*steps);
        }
        let hart = &self.harts.parts[hart as usize];
        let shared = &self.shareds.parts[shared as usize];
        steps_from(alloc, self.image, self.code, hart, shared, turn)
    }
}
