//! Names of objects of the library.

ghost use Rattle.std.specs.Prelude.{◌≡◌, IfOk, IfErr, IfSome};
ghost use Rattle.cli_report.specs.Objects.{IsNoObject, IsRule};
ghost use Rattle.object_library.specs.Names.{object_name};

use cli_args::LineFault;
use object_library::Kind;

/// The object with this name.
pub fn read_object(text: &str) -> Result<Kind, LineFault>
    ensures ok { IfOk result (λ kind. text.now ≡ object_name kind) }
    ensures err { IfErr result (λ fault. fault ≡ LineFault.BadObject) }
    ensures none { IfErr result (λ _. IsNoObject text.now) }
{
    match Kind::of_name(text) {
        Some(kind) => Ok(kind),
        None => Err(LineFault::BadObject),
    }
}

/// The object whose rule is judged, if one is named.
pub fn read_rule(text: Option<&str>) -> Result<Option<Kind>, LineFault>
    ensures ok { IfOk result (IsRule text.entry) }
    ensures err { IfErr result (λ fault. fault ≡ LineFault.BadObject) }
    ensures none { IfErr result (λ _. IfSome text.entry (λ name. IsNoObject name.now)) }
{
    let Some(name) = text else {
        return Ok(None);
    };
    match read_object(name) {
        Ok(kind) => Ok(Some(kind)),
        Err(_) => Err(LineFault::BadObject),
    }
}
