//! Does the choices of a text one after the other, and reports each step.
ghost use Rattle.std.specs.Prelude.{◌≡◌, length};
ghost use Rattle.machine.specs.State.{state};
ghost use Rattle.trace_steps.specs.Known.{Knows};
ghost use Rattle.trace_steps.specs.Latest.{latest_words};

use crate::cursor::Cursor;
use image::Image;
use machine::{Choice, Inputs, Machine};
use mem_flat::FlatStore;
use std::alloc::{AllocError, Allocator};
use trace_steps::{Endings, Explained, Latest, explain_step};
use trace_text::HartThen;

/// A machine, and the choices of a text that are still to be done.
#[derive(Drop)]
pub struct Teller<'a, A: Allocator> {
    machine: Machine<FlatStore<A>, A>,
    latest: Latest,
    endings: Endings,
    cursor: Cursor<'a>,
    ghost known: { Knows (latest_words latest) (state machine).reserved },
    ghost there: { length (state machine).harts ≡ cursor.harts },
}

impl<'a, A: Allocator> Teller<'a, A> {
    ghost use Rattle.std.specs.Prelude.{◌≡◌, List};
    ghost use Rattle.machine.specs.declared.choice.Choice.{Choice};
    ghost use Rattle.cmd_trace.specs.Cursor.{Has};
    ghost use Rattle.cmd_trace.specs.Teller.{TellsNext, Skips, place};

    /// Does the next choice, whose number is `k`, and reports its step; `None` if no choice is left.
    pub fn next(&mut self, k: u64) -> Option<Explained>
        ensures { (left : List Choice) → Has self.old.cursor left
            → TellsNext (place self.old.machine self.old.endings)
            (place self.new.machine self.new.endings) k self.new.cursor left result }
    {
        let Some(choice) = self.cursor.next() else {
            return None;
        };
        // Over a flat store a step needs no memory.
        let Ok(explained) = explain_step(
            &mut self.machine,
            &mut self.latest,
            &mut self.endings,
            choice,
            k,
        ) else {
            unreachable!();
        };
        Some(explained)
    }

    /// Does the next `count` choices, which are numbered from 0, or all that are left if they are
    /// fewer.
    pub fn skip(&mut self, count: u64)
        ensures { (left : List Choice) → Has self.old.cursor left
            → Skips count (place self.old.machine self.old.endings)
            (place self.new.machine self.new.endings) 0 self.new.cursor left }
    {
        'choices: for done in 0..count {
            let Some(_told) = self.next(done) else {
                return;
            };
        }
    }
}

impl<'a, A: Allocator + Copy> Teller<'a, A> {
    ghost use Rattle.std.specs.Prelude.{◌≡◌, List, Ok, IfOk, length, map};
    ghost use Rattle.machine.specs.State.{state};
    ghost use Rattle.machine.specs.declared.choice.Choice.{Choice};
    ghost use Rattle.sched_text.specs.Reading.{choices_read};
    ghost use Rattle.trace_text.specs.Head.{then_of};
    ghost use Rattle.cmd_trace.specs.Cursor.{Has};
    ghost use Rattle.cmd_trace.specs.Teller.{place};
    ghost use Rattle.cmd_trace.specs.Trace.{followed_start, harts_from};

    /// The harts as they are now, each with the word that it has reserved.
    pub fn harts(&self, alloc: A) -> Result<Vec<HartThen, A>, AllocError>
        ensures { IfOk result (λ harts. map then_of harts.items
            ≡ harts_from (state self.now.machine).reserved 0 (state self.now.machine).harts) }
    {
        let mut harts = Vec::new(alloc);
        'harts: for (number, hart) in self.machine.ends().iter().enumerate() {
            harts.push(HartThen {
                hart: *hart,
                reserved: self.latest.reserved(self.machine.reserve(), number),
            })?;
        }
        Ok(harts)
    }

    /// Before all choices of a text, at an image's start.
    pub fn new(
        alloc: A,
        image: &Image<A>,
        inputs: &Inputs,
        text: &'a [u8],
    ) -> Result<Teller<'a, A>, AllocError>
        ensures start { IfOk result (λ t. place t.machine t.endings ≡ followed_start image.now inputs.now) }
        ensures has { IfOk result (λ t. (left : List Choice)
            → choices_read (length inputs.now) text.now ≡ Ok left → Has t.cursor left) }
    {
        let machine: Machine<FlatStore<A>, A> = Machine::start(alloc, image, inputs)?;
        Ok(Teller {
            machine,
            latest: Latest::new(),
            endings: Endings::new(),
            cursor: Cursor::new(text, inputs.harts()),
        })
    }
}
