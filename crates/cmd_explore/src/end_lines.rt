//! The lines of how runs end.
ghost use Rattle.std.specs.Prelude.{◌≡◌, ◌++◌, IfOk, map, string_bytes};
ghost use Rattle.std.specs.List.{flat_map};
ghost use Rattle.explore_space.specs.Ends.{end_of, ends_in};
ghost use Rattle.cmd_explore.specs.EndLines.{ends_line, returned_words, IsEndsText};

use explore_space::{Ends, Returned, RunEnd};
use isa_names::Word;
use std::alloc::{AllocError, Allocator};

// Appends what harts returned.
fn push_returned<A: Allocator>(
    line: &mut String<A>,
    returned: &[Returned],
) -> Result<(), AllocError>
    ensures { IfOk result (λ _.
        string_bytes line.new ≡ string_bytes line.old ++ returned_words 0 returned.now) }
{
    for (number, one) in returned.iter().enumerate() {
        let a0 = Word(one.a0);
        let a1 = Word(one.a1);
        write!(line, " {number}:a0={a0} {number}:a1={a1}")?;
    }
    Ok(())
}

// The line of an end.
fn end_line<A: Allocator>(alloc: A, end: &RunEnd<A>) -> Result<String<A>, AllocError>
    ensures { IfOk result (λ line. string_bytes line ≡ ends_line (end_of end.now)) }
{
    let mut line = String::new(alloc);
    let outcome = end.outcome;
    let exited = outcome.exited;
    let faulted = outcome.faulted;
    let running = outcome.running;
    write!(
        line,
        "ends exited {exited} faulted {faulted} running {running}"
    )?;
    if let Some(verdict) = outcome.verdict {
        write!(line, " {verdict}")?;
    }
    push_returned(&mut line, &end.returned)?;
    writeln!(line)?;
    Ok(line)
}

// The lines of ends, in their order.
fn lines_of<A: Allocator + Copy>(
    alloc: A,
    ends: &[RunEnd<A>],
) -> Result<Vec<String<A>, A>, AllocError>
    ensures { IfOk result (λ lines. map string_bytes lines.items ≡ map ends_line (map end_of ends.now)) }
{
    let mut lines = Vec::new(alloc);
    'ends: for end in ends {
        lines.push(end_line(alloc, end)?)?;
    }
    Ok(lines)
}

// Lines behind one another.
fn joined<A: Allocator>(alloc: A, lines: &[String<A>]) -> Result<String<A>, AllocError>
    ensures { IfOk result (λ text. string_bytes text ≡ flat_map string_bytes lines.now) }
{
    let mut text = String::new(alloc);
    'lines: for line in lines {
        text.push_str(line)?;
    }
    Ok(text)
}

/// The lines of ends, sorted as texts. Fails when out of memory.
pub(crate) fn ends_text<A: Allocator + Copy>(
    alloc: A,
    ends: &Ends<A>,
) -> Result<String<A>, AllocError>
    ensures { IfOk result (λ text. IsEndsText (ends_in ends.now) (string_bytes text)) }
{
    let mut lines = lines_of(alloc, ends.as_slice())?;
    lines.sort()?;
    let text = joined(alloc, lines.as_slice())?;
    Ok(text)
}
