//! How a session begins.

ghost use Rattle.std.specs.Prelude.{◌≡◌, ◌<◌, IfOk, length};
ghost use Rattle.std.specs.List.{All};
ghost use Rattle.debug_session.specs.Session.{session};
ghost use Rattle.cmd_debug.specs.Opening.{first_session};

use byte_io::Progress;
use debug_session::Debugger;
use program_open::OpenRun;
use std::alloc::{AllocError, Allocator};

/// A debugger at the start of an opened run. A long start reports its progress.
pub fn open_session<A: Allocator + Copy>(
    alloc: A,
    run: OpenRun<A>,
    progress: &mut impl Progress,
) -> Result<Debugger<A>, AllocError>
    requires { All (λ c. c.hart < length run.inputs) run.choices.items }
    ensures { IfOk result (λ debugger.
        session debugger ≡ first_session run.image run.inputs run.choices.items) }
{
    let OpenRun {
        image,
        inputs,
        choices,
    } = run;
    Debugger::new_with_progress(alloc, image, inputs, choices, progress)
}
