//! Values of a line, or its status, where they are invalid.

ghost use Rattle.std.specs.Prelude.{◌≡◌, Some, IfOk};
ghost use Rattle.cli_args.specs.Inputs.{inputs_of};
ghost use Rattle.cli_report.specs.Objects.{IsRule};

use crate::objects::read_rule;
use crate::report::refuse;
use byte_io::Status;
use cli_args::read_inputs;
use object_library::Kind;
use program_open::ProgramForm;

/// What a program's file has, by whether a line has `--hex`.
pub fn form_said(hex: bool) -> ProgramForm {
    if hex {
        ProgramForm::Hex
    } else {
        ProgramForm::Elf
    }
}

/// The inputs of a line; where they are invalid, that is reported.
pub fn inputs_said<R: AllocGlobal + Print + Eprint>(rt: &R, text: &str) -> Result<Vec<u32>, Status>
    ensures { IfOk result (λ inputs. inputs_of text.now ≡ Some inputs.items) }
{
    match read_inputs(rt.alloc(), text) {
        Ok(inputs) => Ok(inputs),
        Err(fault) => Err(refuse(rt, &fault)),
    }
}

/// The object whose rule is judged, if a line names one; where there is no such object, that is
/// reported.
pub fn rule_said<R: Print + Eprint>(rt: &R, text: Option<&str>) -> Result<Option<Kind>, Status>
    ensures { IfOk result (IsRule text.entry) }
{
    match read_rule(text) {
        Ok(rule) => Ok(rule),
        Err(fault) => Err(refuse(rt, &fault)),
    }
}
