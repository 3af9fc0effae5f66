//! How it is printed whether a run hangs, where that is asked.
ghost use Rattle.std.specs.Prelude.{◌≡◌, ◌++◌, IfOk, OnOk, Some, string_bytes};
ghost use Rattle.trace_text.specs.Composites.{more_members};
ghost use Rattle.cmd_properties.specs.Hangs.{hang_line, hang_member, status_if, yes_or_no};

use byte_io::Status;
use run_hangs::{RunStatus, status_of_hang};
use std::alloc::{AllocError, Allocator};
use std::fmt;
use trace_text::push_flag;

// `yes` or `no`.
#[derive(Clone, Copy)]
struct YesOrNo(bool);

impl fmt::Display for YesOrNo {
    ghost output = { λ y. Some (yes_or_no y.0) };

    fn fmt<W: fmt::Write>(&self, f: &mut fmt::Formatter<W>) -> fmt::Result {
        let name = if self.0 { "yes" } else { "no" };
        f.write_str(name)
    }
}

/// Appends the line that says whether a run hangs, ended by LF, if that is asked.
pub(crate) fn push_hang_line<A: Allocator>(
    text: &mut String<A>,
    hangs: Option<bool>,
) -> Result<(), AllocError>
    ensures { IfOk result (λ _. string_bytes text.new ≡ string_bytes text.old ++ hang_line hangs) }
{
    match hangs {
        None => Ok(()),
        Some(hangs) => {
            let answer = YesOrNo(hangs);
            writeln!(text, "hangs {answer}")
        }
    }
}

/// Appends the member that says so, behind others, if that is asked, and the closing brace.
#[tactic(auto, unfolding(trace_text::specs::Composites::member))]
pub(crate) fn push_hang_member<A: Allocator>(
    out: &mut Vec<u8, A>,
    hangs: Option<bool>,
) -> Result<(), AllocError>
    ensures { OnOk result (out.new.items ≡ out.old.items ++ more_members (hang_member hangs)) }
{
    if let Some(hangs) = hangs {
        out.extend_from_slice(b",\"hangs\":")?;
        push_flag(out, hangs)?;
    }
    out.push(b'}')?;
    Ok(())
}

/// The status of a run, given whether it hangs and its status without that.
pub(crate) fn status_if(hangs: Option<bool>, status: Status) -> RunStatus
    ensures { result ≡ status_if hangs status }
{
    match hangs {
        None => RunStatus::Of(status),
        Some(hangs) => status_of_hang(hangs, status),
    }
}
