//! The printed lines of harts' ends, and of the verdict on them.

ghost use Rattle.std.specs.Prelude.{◌≡◌, Some, IfOk, map, string_bytes};
ghost use Rattle.hart_step.specs.Hart.{hart_of};
ghost use Rattle.outcome.specs.Ends.{cause_name, end_line, verdict_on, lines_of_ends};

use hart_step::{Cause, Hart, HartState};
use isa_names::Word;
use machine::Choice;
use object_library::{Kind, Verdict, judge};
use std::alloc::{AllocError, Allocator};
use std::fmt;

// The indices of a0 and a1 among the registers.
const A0: usize = 10;

const A1: usize = 11;

/// A cause, shown by its name.
#[derive(Clone, Copy)]
pub struct CauseName(pub Cause);

impl fmt::Display for CauseName {
    ghost output = { λ c. Some (cause_name c.0) };

    fn fmt<W: fmt::Write>(&self, f: &mut fmt::Formatter<W>) -> fmt::Result {
        let name = match self.0 {
            Cause::FetchAccess => "FetchAccess",
            Cause::Illegal => "Illegal",
            Cause::LoadMisaligned => "LoadMisaligned",
            Cause::LoadAccess => "LoadAccess",
            Cause::StoreMisaligned => "StoreMisaligned",
            Cause::StoreAccess => "StoreAccess",
            Cause::JumpMisaligned => "JumpMisaligned",
            Cause::BadCall => "BadCall",
            Cause::Break => "Break",
        };
        f.write_str(name)
    }
}

/// A hart's number and its end, shown as a line without LF.
#[derive(Clone, Copy)]
pub struct EndLine {
    /// The hart's number, from 0.
    pub number: usize,
    /// The hart as it is now.
    pub hart: Hart,
}

impl fmt::Display for EndLine {
    ghost output = { λ l. Some (end_line l.number (hart_of l.hart)) };

    fn fmt<W: fmt::Write>(&self, f: &mut fmt::Formatter<W>) -> fmt::Result {
        let number = self.number;
        let a0 = Word(self.hart.registers[A0]);
        let a1 = Word(self.hart.registers[A1]);
        let pc = Word(self.hart.pc);
        match self.hart.state {
            HartState::Running => write!(f, "hart {number} running pc {pc}"),
            HartState::Exited(_) => write!(f, "hart {number} exited a0 {a0} a1 {a1}"),
            HartState::Faulted(cause) => {
                let name = CauseName(cause);
                write!(f, "hart {number} faulted {name} pc {pc}")
            }
        }
    }
}

/// The verdict on harts under a rule, if there is one, by the inputs and the choices of their run.
pub fn verdict_on(
    rule: Option<Kind>,
    inputs: &[u32],
    choices: &[Choice],
    harts: &[Hart],
) -> Option<Verdict>
    ensures { result ≡ verdict_on rule inputs.now choices.now (map hart_of harts.now) }
{
    match rule {
        None => None,
        Some(kind) => Some(judge(kind, inputs, choices, harts)),
    }
}

/// The harts' lines in order, each ended by LF, and then the verdict's line, if there is one.
pub fn lines_text<A: Allocator>(
    alloc: A,
    verdict: Option<Verdict>,
    harts: &[Hart],
) -> Result<String<A>, AllocError>
    ensures { IfOk result (λ text. string_bytes text ≡ lines_of_ends verdict (map hart_of harts.now)) }
{
    let mut text = String::new(alloc);
    for (number, hart) in harts.iter().enumerate() {
        let line = EndLine {
            number,
            hart: *hart,
        };
        writeln!(text, "{line}")?;
    }
    if let Some(verdict) = verdict {
        writeln!(text, "verdict {verdict}")?;
    }
    Ok(text)
}
