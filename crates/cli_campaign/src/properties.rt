//! The properties of a campaign, of an exploration, or of a run that is shrunk.

ghost use Rattle.std.specs.Prelude.{◌-◌, ◌<◌, ◌^◌};

use byte_io::{ReadFault, Source, Status, read_all};
use cli_orders::{CampaignOrder, ExploreOrder, ShrinkOrder};
use cli_report::{Audience, RunFiles, out_of_memory, say_why};
use cmd_campaign::Properties;
use elf_read::{SymFault, Symbol, symbols};
use machine::Inputs;
use program_open::{CommandFault, Input, ProgramForm, read_program};
use property_judge::Property;
use property_text::{PropertyFault, read_always, read_never_both};
use std::alloc::{AllocError, Global};
use std::rt::Files;

/// The properties of an order, as they are written.
#[derive(Clone, Copy)]
pub(crate) struct PropertyTexts<'a> {
    never_both: Option<&'a str>,
    always: Option<&'a str>,
}

impl<'a> PropertyTexts<'a> {
    /// Those of a campaign.
    pub(crate) fn of_campaign(order: &CampaignOrder<'a>) -> PropertyTexts<'a> {
        PropertyTexts {
            never_both: order.never_both,
            always: order.always,
        }
    }

    /// Those of an exploration.
    pub(crate) fn of_explore(order: &ExploreOrder<'a>) -> PropertyTexts<'a> {
        PropertyTexts {
            never_both: order.never_both,
            always: order.always,
        }
    }

    /// Those of a run that is shrunk.
    pub(crate) fn of_shrink(order: &ShrinkOrder<'a>) -> PropertyTexts<'a> {
        PropertyTexts {
            never_both: order.never_both,
            always: order.always,
        }
    }
}

/// The bytes of a program, to its end, and the properties that these texts mean by its symbols. The
/// error is the status of what was refused, which is reported: a fault of the program comes before
/// that of the number of inputs, and both before that of a property.
pub(crate) fn read_properties<R: Files + AllocGlobal + Eprint, P: Source>(
    rt: &R,
    audience: Audience,
    file: &str,
    texts: PropertyTexts<'_>,
    inputs: &[u32],
    program: &mut P,
) -> Result<(Vec<u8>, Properties), Status>
    requires { P.failures program.old < 2 ^ 64 - 1 }
{
    let bytes = match read_checked(rt.alloc(), inputs, program) {
        Ok(bytes) => bytes,
        Err(fault) => {
            let files = RunFiles::of_program(file, inputs.len());
            return Err(say_why(rt, audience, files, fault));
        }
    };
    let properties = properties_among(rt, texts, &bytes)?;
    Ok((bytes, properties))
}

// The bytes of a program that an image can be made of, for a number of inputs that can start.
fn read_checked<P: Source>(
    alloc: Global,
    inputs: &[u32],
    program: &mut P,
) -> Result<Vec<u8>, CommandFault>
    requires { P.failures program.old < 2 ^ 64 - 1 }
{
    let bytes = match read_all(alloc, program) {
        Ok(bytes) => bytes,
        Err(ReadFault::Device) => return Err(CommandFault::Read(Input::File)),
        Err(ReadFault::Memory) => return Err(CommandFault::Memory),
    };
    read_program(alloc, ProgramForm::Elf, &bytes)?;
    Inputs::new(inputs)?;
    Ok(bytes)
}

/// The symbols of a program, none if it has no valid table of them; or the status of being out of
/// memory, which is reported.
pub(crate) fn symbols_of<R: AllocGlobal + Eprint>(
    rt: &R,
    program: &[u8],
) -> Result<Vec<Symbol<Global>>, Status> {
    match symbols(rt.alloc(), program) {
        Ok(symbols) => Ok(symbols),
        Err(SymFault::NoTable | SymFault::BadTable) => Ok(Vec::new(rt.alloc())),
        Err(SymFault::Memory) => Err(out_of_memory(rt)),
    }
}

// The properties of texts, by the symbols of a program: of a range, and then of a word.
fn properties_among<R: AllocGlobal + Eprint>(
    rt: &R,
    texts: PropertyTexts<'_>,
    program: &[u8],
) -> Result<Properties, Status> {
    let symbols = symbols_of(rt, program)?;
    let first = match texts.never_both {
        Some(text) => Some(property_said(rt, text, read_never_both(&symbols, text.as_bytes()))?),
        None => None,
    };
    let second = match texts.always {
        Some(text) => Some(property_said(rt, text, read_always(&symbols, text.as_bytes()))?),
        None => None,
    };
    Ok(Properties { first, second })
}

/// What a text was read as, or the status of its fault, which is reported.
pub(crate) fn property_said<P: Copy>(
    rt: &impl Eprint,
    text: &str,
    read: Result<P, PropertyFault>,
) -> Result<P, Status> {
    match read {
        Ok(property) => Ok(property),
        Err(fault) => {
            let why = fault.advice();
            let _ = eprintln!(rt; "rvcons: '{text}': {why}");
            Err(Status::BadLine)
        }
    }
}

/// Properties as a list, in order.
pub(crate) fn listed(alloc: Global, properties: Properties) -> Result<Vec<Property>, AllocError> {
    let mut list = Vec::new(alloc);
    if let Some(property) = properties.first {
        list.push(property)?;
    }
    if let Some(property) = properties.second {
        list.push(property)?;
    }
    Ok(list)
}

/// Shows the options of a campaign's properties behind a command.
pub(crate) fn show_properties<R: Eprint>(rt: &R, order: &CampaignOrder) -> Option<()> {
    if let Some(range) = order.never_both {
        eprint!(rt; " --never-both {range}").ok()?;
    }
    if let Some(text) = order.always {
        eprint!(rt; " --always '{text}'").ok()?;
    }
    Some(())
}
