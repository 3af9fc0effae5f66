//! The choices of a line, as the bytes of their text.

use crate::made::{Run, history_text, seed_text, turns_text};
use byte_io::Status;
use cli_args::ChoiceText;
use cli_report::{Audience, inputs_said, out_of_memory, read_input_to_end};
use program_open::ProgramForm;
use std::alloc::{AllocError, Global};
use std::io::Input;
use std::rt::Files;

/// The run that a line names, but for its choices.
#[derive(Clone, Copy)]
pub struct NamedRun<'a> {
    /// The program's path.
    pub file: &'a str,
    /// What the file has.
    pub form: ProgramForm,
    /// The harts' inputs.
    pub inputs: &'a str,
}

// The bytes of a text.
fn bytes_of(alloc: Global, text: &str) -> Result<Vec<u8>, AllocError> {
    Vec::from_slice(alloc, text.as_bytes())
}

// The text of choices that are made for a run, or the report of why there is none.
fn made_text<R: Files + AllocGlobal + Print + Eprint>(
    rt: &R,
    audience: Audience,
    named: NamedRun<'_>,
    choices: ChoiceText<'_>,
) -> Result<String<Global>, Status> {
    let inputs = inputs_said(rt, named.inputs)?;
    let run = Run {
        file: named.file,
        form: named.form,
        inputs: &inputs,
    };
    match choices {
        ChoiceText::Seed(said) => seed_text(rt, audience, run, said),
        ChoiceText::Turns(steps) => turns_text(rt, run, steps),
        ChoiceText::History(path) => history_text(rt, audience, run, path),
        ChoiceText::File(_) | ChoiceText::Input | ChoiceText::List(_) => {
            Ok(String::new(rt.alloc()))
        }
    }
}

/// The text of a run's choices, if it is neither in a file nor on the line: standard input is read
/// to its end, and the choices of a seed, of turns and of a history are made. Else it is empty. The
/// error is the status of what was refused, which is reported.
pub fn hold_choices<R: Files + AllocGlobal + Print + Eprint + Input>(
    rt: &R,
    audience: Audience,
    named: NamedRun<'_>,
    choices: ChoiceText<'_>,
) -> Result<Vec<u8>, Status> {
    match choices {
        ChoiceText::File(_) | ChoiceText::List(_) => Ok(Vec::new(rt.alloc())),
        ChoiceText::Input => read_input_to_end(rt),
        _ => {
            let text = made_text(rt, audience, named, choices)?;
            match bytes_of(rt.alloc(), &text) {
                Ok(bytes) => Ok(bytes),
                Err(AllocError) => Err(out_of_memory(rt)),
            }
        }
    }
}
