//! The lines of positions and stops.
ghost use Rattle.std.specs.Prelude.{◌≡◌, Some, IfOk, string_bytes};
ghost use Rattle.debug_text.specs.Texts.{position_text, break_text, kind_text, watch_text, delete_text, stop_text, found_text};

use debug_session::{AtBreak, Stop, WatchHit, WatchKind};
use isa_names::Word;
use std::alloc::{AllocError, Allocator};
use std::fmt;

// The command that watches in a way.
fn kind_text(kind: WatchKind) -> &'static str
    ensures { result.now ≡ kind_text kind }
{
    match kind {
        WatchKind::Change => "watch",
        WatchKind::Read => "rwatch",
        WatchKind::Access => "awatch",
    }
}

/// The reason for a stop, or the text in its place, shown without LF.
#[derive(Clone, Copy)]
struct StopText<'a> {
    none: &'a str,
    stop: Option<Stop>,
}

impl<'a> fmt::Display for StopText<'a> {
    ghost output = { λ t. Some (stop_text t.none.now t.stop) };

    fn fmt<W: fmt::Write>(&self, f: &mut fmt::Formatter<W>) -> fmt::Result {
        match self.stop {
            None => f.write_str(self.none),
            Some(Stop::Break(AtBreak { hart, address })) => {
                let address = Word(address);
                write!(f, "break h{hart} {address}")
            }
            Some(Stop::Watch(WatchHit { kind, address })) => {
                let (kind, address) = (kind_text(kind), Word(address));
                write!(f, "{kind} {address}")
            }
            Some(Stop::Both(AtBreak { hart, address }, hit)) => {
                let (pc, kind, address) = (Word(address), kind_text(hit.kind), Word(hit.address));
                write!(f, "break h{hart} {pc}\n{kind} {address}")
            }
        }
    }
}

/// The line of position k of n.
pub fn position_text<A: Allocator>(alloc: A, k: usize, n: usize) -> Result<String<A>, AllocError>
    ensures { IfOk result (λ text. string_bytes text ≡ position_text k n) }
{
    format!(in alloc; "step {k} of {n}\n")
}

/// The line of a breakpoint.
pub fn break_text<A: Allocator>(alloc: A, address: u32) -> Result<String<A>, AllocError>
    ensures { IfOk result (λ text. string_bytes text ≡ break_text address) }
{
    let address = Word(address);
    format!(in alloc; "break {address}\n")
}

/// The line of a watched word.
pub fn watch_text<A: Allocator>(
    alloc: A,
    kind: WatchKind,
    address: u32,
) -> Result<String<A>, AllocError>
    ensures { IfOk result (λ text. string_bytes text ≡ watch_text kind address) }
{
    let (kind, address) = (kind_text(kind), Word(address));
    format!(in alloc; "{kind} {address}\n")
}

/// The line of an address at which nothing is to stop any more.
pub fn delete_text<A: Allocator>(alloc: A, address: u32) -> Result<String<A>, AllocError>
    ensures { IfOk result (λ text. string_bytes text ≡ delete_text address) }
{
    let address = Word(address);
    format!(in alloc; "delete {address}\n")
}

/// The reason for a stop, or the text in its place, and the line of position k of n.
pub fn found_text<A: Allocator>(
    alloc: A,
    none: &str,
    stop: Option<Stop>,
    k: usize,
    n: usize,
) -> Result<String<A>, AllocError>
    ensures { IfOk result (λ text. string_bytes text ≡ found_text none.now stop k n) }
{
    let stop = StopText { none, stop };
    format!(in alloc; "{stop}\nstep {k} of {n}\n")
}
