//! `explore`: from a program and inputs to whether some schedule of it fails or hangs.

ghost use Rattle.std.specs.Prelude.{◌≡◌, ◌-◌, ◌^◌, ◌<◌, None, Ok, IfErr, IfOk, IfSome, codes, length};
ghost use Rattle.std.specs.List.{All};
ghost use Rattle.machine.specs.Start.{IsStartable, started};
ghost use Rattle.program_open.specs.CommandFaults.{IfNames, IsRefusal};
ghost use Rattle.program_open.specs.Opening.{program_opening};
ghost use Rattle.cmd_explore.specs.Explore.{failing_status, list_shown, section_broken, word_broken, ExploresOpened, HasTooMany, IsExplored, RefusesOpened};

use crate::breaks::{section_broken, word_broken};
use crate::finding::{Explored, Finding};
use crate::holding::holding_text;
use crate::listed::list_text;
use byte_io::{Progress, Source, Status};
use cmd_json::Form;
use explore_space::{Answer, Failing, Question, explore};
use image::Image;
use machine::Inputs;
use object_library::Kind;
use program_open::{CommandFault, ProgramForm, open_program};
use std::alloc::{AllocError, Allocator};

// The status of a failing run: after so many choices it breaks what a word must be, if it does, and
// after so many two harts stand in the section.
fn failing_status(rule: Option<Kind>, broken: Option<usize>, both: Option<usize>) -> Status
    ensures { result ≡ failing_status rule broken both }
{
    match (rule, broken, both) {
        (_, Some(_), _) | (_, None, Some(_)) | (Some(_), None, None) => Status::Broken,
        (None, None, None) => Status::Faulted,
    }
}

// The answer where a list fails.
fn failing_found<A: Allocator + Copy>(
    alloc: A,
    image: &Image<A>,
    inputs: &Inputs,
    form: Form,
    question: Question,
    failing: &Failing<A>,
) -> Result<Explored<A>, AllocError>
    requires { All (λ c. c.hart < length inputs.now) failing.now.choices.items }
    ensures text { IfOk result (λ found. found.text.items
        ≡ list_shown form (codes "fails") failing.now.turns failing.now.choices.items) }
    ensures status { IfOk result (λ found. found.status
        ≡ failing_status question.expect.rule found.broken found.both) }
    ensures broken { IfOk result (λ found. found.broken
        ≡ word_broken question.always (started image.now inputs.now) failing.now.choices.items) }
    ensures both { IfOk result (λ found. found.both
        ≡ section_broken question.never_both (started image.now inputs.now) failing.now.choices.items) }
    ensures finding { IfOk result (λ found. found.finding ≡ Finding.Fails failing.now.turns) }
{
    let broken = word_broken(alloc, image, inputs, question.always, &failing.choices)?;
    let both = section_broken(alloc, image, inputs, question.never_both, &failing.choices)?;
    Ok(Explored {
        text: list_text(alloc, form, "fails", failing)?,
        status: failing_status(question.expect.rule, broken, both),
        broken,
        both,
        finding: Finding::Fails(failing.turns),
    })
}

// The answer for an image; `None` if there are too many worlds.
fn explored<A: Allocator + Copy>(
    alloc: A,
    image: &Image<A>,
    inputs: &Inputs,
    form: Form,
    question: Question,
    progress: &mut impl Progress,
) -> Result<Option<Explored<A>>, AllocError>
    requires { IsStartable inputs.now }
    ensures told { IfOk result (λ answer. IfSome answer (λ found. IsExplored form question image.now inputs.now found)) }
    ensures too_many { result ≡ Ok None → HasTooMany question image.now inputs.now }
{
    let expect = question.expect;
    match explore(alloc, image, inputs, question, progress)? {
        Answer::Holds(held) => Ok(Some(Explored {
            text: holding_text(alloc, form, expect.exit, &held)?,
            status: Status::Done,
            broken: None,
            both: None,
            finding: Finding::Holds,
        })),
        Answer::Fails(failing) => Ok(Some(failing_found(
            alloc, image, inputs, form, question, &failing,
        )?)),
        Answer::Hangs(hanging) => Ok(Some(Explored {
            text: list_text(alloc, form, "hangs", &hanging)?,
            status: Status::Faulted,
            broken: None,
            both: None,
            finding: Finding::Hangs(hanging.turns),
        })),
        Answer::Undecided => Ok(None),
    }
}

/// `explore`: reads the program to its end, checks the number of inputs, and goes through every
/// world that any list of the harts' choices leads to. The answer holds of every schedule, of any
/// length. If there are more worlds than may be looked at, that is the fault.
pub fn explore_engine<A: Allocator + Copy, P: Source>(
    alloc: A,
    inputs: &[u32],
    form: Form,
    question: Question,
    program: &mut P,
    progress: &mut impl Progress,
) -> Result<Explored<A>, CommandFault>
    requires { P.failures program.old < 2 ^ 64 - 1 }
    ensures done { IfOk result (λ found. IfSome (P.left program.old) (λ p.
        ExploresOpened form question inputs.now (program_opening ProgramForm.Elf (length inputs.now) p) found)) }
    // An input is invalid, or there are too many worlds.
    ensures refused { IfErr result (λ fault. IsRefusal fault
        → IfSome (P.left program.old) (λ p.
        RefusesOpened question inputs.now (program_opening ProgramForm.Elf (length inputs.now) p) fault)) }
    // The program's device is named only if it failed, and no other is.
    ensures read { IfErr result (λ fault. IfNames fault
        (P.failures program.old < P.failures program.new) ⊥ ⊥ ⊥) }
{
    let run = open_program(alloc, ProgramForm::Elf, inputs, program)?;
    match explored(alloc, &run.image, &run.inputs, form, question, progress) {
        Ok(Some(found)) => Ok(found),
        Ok(None) => Err(CommandFault::Undecided(question.most)),
        Err(AllocError) => Err(CommandFault::Memory),
    }
}
