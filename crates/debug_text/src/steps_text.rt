//! The lines of steps.
ghost use Rattle.std.specs.Prelude.{◌≡◌, ◌++◌, Some, OnOk, IfOk, string_bytes};
ghost use Rattle.debug_text.specs.Texts.{event_text, mark_text, step_line, step_entry, steps_text};

use debug_session::{Event, StepView};
use isa_disasm::Line;
use isa_names::Word;
use std::alloc::{AllocError, Allocator};
use std::fmt;

// What a hart meets at an address.
#[derive(Clone, Copy)]
pub(crate) struct EventText {
    pub(crate) event: Event,
    pub(crate) pc: u32,
}

impl fmt::Display for EventText {
    ghost output = { λ t. Some (event_text t.event t.pc) };

    fn fmt<W: fmt::Write>(&self, f: &mut fmt::Formatter<W>) -> fmt::Result {
        match self.event {
            Event::Stopped => f.write_str("stopped"),
            Event::NoFetch => f.write_str("no fetch"),
            Event::Word(word) => {
                let line = Line {
                    address: self.pc,
                    word,
                };
                write!(f, "{line}")
            }
        }
    }
}

/// `!` if a choice refuses.
pub fn mark_text(refuse: bool) -> &'static str
    ensures { result.now ≡ mark_text refuse }
{
    if refuse { "!" } else { "" }
}

/// Appends the line of a step. Fails when out of memory; a part of the line may then stand there.
pub fn push_step<A: Allocator>(text: &mut String<A>, view: StepView) -> Result<(), AllocError>
    ensures { OnOk result (string_bytes text.new ≡ string_bytes text.old ++ step_entry view) }
{
    let (index, hart) = (view.index, view.choice.hart);
    let mark = mark_text(view.choice.refuse);
    let pc = Word(view.pc);
    let event = EventText {
        event: view.event,
        pc: view.pc,
    };
    writeln!(text, "{index} h{hart}{mark} {pc} {event}")?;
    Ok(())
}

/// The lines of steps.
#[tactic(auto, unfolding(crate::specs::Texts::steps_text))]
pub fn steps_text<A: Allocator>(alloc: A, views: &[StepView]) -> Result<String<A>, AllocError>
    ensures { IfOk result (λ text. string_bytes text ≡ steps_text views.now) }
{
    let mut text = String::new(alloc);
    'views: for view in views {
        push_step(&mut text, *view)?;
    }
    Ok(text)
}
