//! The worlds of a program.
ghost use Rattle.std.specs.Prelude.{◌≡◌, ◌<◌, ℕ, IfOk, length, map, slice_get, take};
ghost use Rattle.machine.specs.Start.{started};
ghost use Rattle.explore_laws.specs.OwnSteps.{steps_in_turn};
ghost use Rattle.outcome.specs.Expect.{fails, judged};
ghost use Rattle.outcome.specs.declared.expect.Exit.TheVariants.{May};
ghost use Rattle.mem_store.specs.Image.{image_memory, segments_memory};
ghost use Rattle.hart_local.specs.CodeMemory.{code_in};
ghost use Rattle.explore_space.specs.Begun.{turns_start};
ghost use Rattle.explore_space.specs.Habits.{habits_of, owners_in, stride_by_habit};
ghost use Rattle.explore_space.specs.Places.{IsKey, chosen_by_key, hart_worded, place_of_key, world_of_key};
ghost use Rattle.explore_space.specs.Failing.{breaks_section, breaks_word, ends_search, ends_there, fails_there, one_each, strays_by, strays_from};

use crate::failing::{breaks_word, fails_at, harts_within, has_ended_at};
use crate::known::Known;
use crate::question::Always;
use crate::settling::LocalCode;
use crate::word::hart_of_word;
use explore_search::Space;
use hart_step::Hart;
use image::Image;
use machine::{Choice, Inputs};
use object_library::Kind;
use std::alloc::{AllocError, Allocator};

/// The worlds of a program with these inputs, under keys.
#[derive(Drop)]
pub struct Explorer<'a, A: Allocator> {
    alloc: A,
    known: Known<'a, A>,
    inputs: &'a Inputs,
    rule: Option<Kind>,
    always: Option<Always>,
}

impl<'a, A: Allocator + Copy> Explorer<'a, A> {
    /// Nothing is known yet. The code's section is the one in which no two harts may stand. Fails when
    /// out of memory.
    pub fn new(
        alloc: A,
        image: &'a Image<A>,
        code: &'a LocalCode<A>,
        inputs: &'a Inputs,
        rule: Option<Kind>,
        always: Option<Always>,
    ) -> Result<Explorer<'a, A>, AllocError>
        requires { segments_memory code.now.code ≡ code_in (image_memory image.now) }
        ensures image { IfOk result (λ e. e.known.image.now ≡ image.now) }
        ensures inputs { IfOk result (λ e. e.inputs.now ≡ inputs.now) }
        ensures rule { IfOk result (λ e. e.rule ≡ rule) }
        ensures always { IfOk result (λ e. e.always ≡ always) }
        ensures code { IfOk result (λ e. e.known.code.now ≡ code.now) }
    {
        let known = Known::new(alloc, image, code)?;
        Ok(Explorer {
            alloc,
            known,
            inputs,
            rule,
            always,
        })
    }

    /// The harts that are known, by the numbers that keys' words tell.
    pub fn known_harts(&self) -> &[Hart]
        ensures { result.now ≡ self.now.known.harts.parts.items }
    {
        &self.known.harts.parts
    }

    /// How many steps a turn's hart takes in it from a key's place. The only error is out of memory.
    pub fn steps_in(&self, key: &[u32], turn: Choice) -> Result<u32, AllocError>
        requires { IsKey self.now.known.image.now (length self.now.inputs.now) self.now.known.harts.parts.items
            self.now.known.shareds.parts.items key.now }
        ensures { IfOk result (λ steps. steps ≡ steps_in_turn (stride_by_habit (habits_of self.now.known.code.now)) (world_of_key self.now.known.image.now (length self.now.inputs.now)
            self.now.known.harts.parts.items self.now.known.shareds.parts.items key.now) turn.hart turn) }
    {
        self.known.steps_in(self.alloc, self.inputs, key, turn)
    }

    // Whether a word isn't what it must be in a key's place.
    fn breaks_word_at(&self, key: &[u32]) -> bool
        requires { IsKey self.now.known.image.now (length self.now.inputs.now) self.now.known.harts.parts.items
            self.now.known.shareds.parts.items key.now }
        ensures { result ≡ breaks_word self.now.always (world_of_key self.now.known.image.now (length self.now.inputs.now)
            self.now.known.harts.parts.items self.now.known.shareds.parts.items key.now) }
    {
        let Some(always) = self.always else {
            return false;
        };
        let count = self.inputs.harts() as usize;
        let shared = &self.known.shareds.parts[key[count] as usize];
        breaks_word(self.known.image, &shared.cells, always)
    }

    // Whether two harts stand in the section in a key's place.
    fn breaks_section_at(&self, key: &[u32]) -> Result<bool, AllocError>
        requires { IsKey self.now.known.image.now (length self.now.inputs.now) self.now.known.harts.parts.items
            self.now.known.shareds.parts.items key.now }
        ensures { IfOk result (λ answer. answer ≡ breaks_section self.now.known.code.now.section (world_of_key self.now.known.image.now
            (length self.now.inputs.now) self.now.known.harts.parts.items self.now.known.shareds.parts.items key.now)) }
    {
        let Some(section) = self.known.code.section else {
            return Ok(false);
        };
        let count = self.inputs.harts() as usize;
        let within = harts_within(self.alloc, &self.known.harts.parts, count, key, section)?;
        Ok(!(within < 2))
    }

    // Whether the hart with this number may stray into another's words in a key's place.
    fn strays_there(&self, key: &[u32], number: u32) -> bool
        requires is { IsKey self.now.known.image.now (length self.now.inputs.now) self.now.known.harts.parts.items
            self.now.known.shareds.parts.items key.now }
        requires there { number < length self.now.inputs.now }
        ensures { result ≡ strays_by (owners_in self.now.known.code.now.words.items) (world_of_key self.now.known.image.now (length self.now.inputs.now)
            self.now.known.harts.parts.items self.now.known.shareds.parts.items key.now) number
            (slice_get (world_of_key self.now.known.image.now (length self.now.inputs.now)
            self.now.known.harts.parts.items self.now.known.shareds.parts.items key.now).harts number) }
    {
        let hart = &self.known.harts.parts[hart_of_word(key[number as usize]) as usize];
        self.known.code.strays(self.known.image, hart, number)
    }

    // Whether some hart may stray so; where no word belongs to one there is nothing to look at.
    fn strays_at(&self, key: &[u32]) -> bool
        requires { IsKey self.now.known.image.now (length self.now.inputs.now) self.now.known.harts.parts.items
            self.now.known.shareds.parts.items key.now }
        ensures { result ≡ strays_from self.now.known.code.now.words.items (world_of_key self.now.known.image.now (length self.now.inputs.now)
            self.now.known.harts.parts.items self.now.known.shareds.parts.items key.now) (length self.now.inputs.now) }
    {
        if self.known.code.words.is_empty() {
            return false;
        }
        'harts: for number in 0..self.inputs.harts() {
            if self.strays_there(key, number) {
                return true;
            }
        }
        false
    }

    // Whether the rule is broken in a key's place, or without a rule a hart has faulted.
    fn fails_by_rule_at(&self, key: &[u32]) -> Result<bool, AllocError>
        requires { IsKey self.now.known.image.now (length self.now.inputs.now) self.now.known.harts.parts.items
            self.now.known.shareds.parts.items key.now }
        ensures { IfOk result (λ answer. answer ≡ fails May (judged self.now.rule self.now.inputs.now
            (one_each (length self.now.inputs.now) (chosen_by_key (length self.now.inputs.now) key.now))
            (map (hart_worded self.now.known.harts.parts.items) (take (length self.now.inputs.now) key.now)))) }
    {
        fails_at(
            self.alloc,
            &self.known.harts.parts,
            self.inputs.words(),
            self.rule,
            key,
        )
    }
}

impl<'a, A: Allocator + Copy> Explorer<'a, A> {
    // Whether the run to a key's place has failed: a word isn't what it must be, two harts stand in
    // the section, the rule is broken, or without a rule a hart has faulted.
    fn has_failed(&self, key: &[u32]) -> Result<bool, AllocError>
        requires { IsKey self.now.known.image.now (length self.now.inputs.now) self.now.known.harts.parts.items
            self.now.known.shareds.parts.items key.now }
        ensures { IfOk result (λ answer. answer ≡ fails_there self.now.rule self.now.always self.now.known.code.now.section self.now.inputs.now
            (place_of_key (habits_of self.now.known.code.now) self.now.known.image.now (length self.now.inputs.now)
            self.now.known.harts.parts.items self.now.known.shareds.parts.items key.now)) }
    {
        if self.breaks_word_at(key) || self.breaks_section_at(key)? {
            return Ok(true);
        }
        self.fails_by_rule_at(key)
    }
}

impl<'a, A: Allocator + Copy> Space<A> for Explorer<'a, A> {
    ghost is_key = { λ e key. IsKey e.known.image.now (length e.inputs.now) e.known.harts.parts.items e.known.shareds.parts.items key };

    ghost place = { λ e key. place_of_key (habits_of e.known.code.now) e.known.image.now (length e.inputs.now) e.known.harts.parts.items e.known.shareds.parts.items key };

    ghost first = { λ e. turns_start (habits_of e.known.code.now) (started e.known.image.now e.inputs.now) };

    ghost bad = { λ e p. ends_search e.rule e.always e.known.code.now.section e.known.code.now.words.items e.inputs.now p };

    ghost ended = { λ e p. ends_there p };

    fn first_key(&mut self) -> Result<Vec<u32, A>, AllocError> {
        self.known.begin(self.alloc, self.inputs)
    }

    fn key_after(
        &mut self,
        key: &[u32],
        choice: Choice,
        next: &mut Vec<u32, A>,
    ) -> Result<(), AllocError> {
        let count = self.inputs.harts() as usize;
        self.known.key_after(self.alloc, count, key, choice, next)
    }

    fn is_bad(&self, key: &[u32]) -> Result<bool, AllocError> {
        if self.has_failed(key)? {
            return Ok(true);
        }
        Ok(self.strays_at(key))
    }

    fn has_ended(&self, key: &[u32]) -> Result<bool, AllocError> {
        let count = self.inputs.harts() as usize;
        has_ended_at(self.alloc, &self.known.harts.parts, count, key)
    }
}
