//! The text of a program that fails in no schedule.
ghost use Rattle.std.specs.Prelude.{◌≡◌, IfOk, string_bytes};
ghost use Rattle.explore_space.specs.Ends.{ends_in};
ghost use Rattle.cmd_explore.specs.Explore.{TellsHeld, worlds_line};

use crate::bound_lines::push_bounds;
use crate::end_lines::ends_text;
use crate::objects::held_object;
use cmd_json::Form;
use explore_space::Held;
use outcome::Exit;
use std::alloc::{AllocError, Allocator};

// The line with the number of worlds.
fn worlds_line<A: Allocator>(alloc: A, exit: Exit, worlds: usize) -> Result<String<A>, AllocError>
    ensures { IfOk result (λ text. string_bytes text ≡ worlds_line exit worlds) }
{
    let mut text = String::new(alloc);
    match exit {
        Exit::May => writeln!(text, "every schedule: {worlds} worlds")?,
        Exit::Must => writeln!(text, "every schedule: {worlds} worlds, each with a way out")?,
    }
    Ok(text)
}

// The number of worlds of a program that fails in no schedule, and behind it the lines of its
// ends, and of its harts' bounds where they are known.
fn holding_lines<A: Allocator + Copy>(
    alloc: A,
    exit: Exit,
    held: &Held<A>,
) -> Result<String<A>, AllocError>
    ensures { IfOk result (λ text. TellsHeld Form.Text exit held.now.places (ends_in held.now.ends) held.now.bounds.items (string_bytes text)) }
{
    let mut text = worlds_line(alloc, exit, held.places)?;
    let ends = ends_text(alloc, &held.ends)?;
    text.push_str(&ends)?;
    push_bounds(&mut text, &held.bounds)?;
    Ok(text)
}

/// What is told of a program that fails in no schedule: the number of its worlds, its ends, and its
/// harts' bounds where they are known. Fails when out of memory.
pub(crate) fn holding_text<A: Allocator + Copy>(
    alloc: A,
    form: Form,
    exit: Exit,
    held: &Held<A>,
) -> Result<Vec<u8, A>, AllocError>
    ensures { IfOk result (λ text. TellsHeld form exit held.now.places (ends_in held.now.ends) held.now.bounds.items text.items) }
{
    match form {
        Form::Text => {
            let text = holding_lines(alloc, exit, held)?;
            Ok(text.into_bytes())
        }
        Form::Json => held_object(alloc, exit, held),
    }
}
