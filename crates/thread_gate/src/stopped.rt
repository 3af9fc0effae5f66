//! Harts that have stopped.
ghost use Rattle.std.specs.Prelude.{◌≡◌};
ghost use Rattle.thread_gate.specs.Stopped.{is_stopped};

use hart_step::{Hart, HartState};

/// Whether a hart has exited or faulted.
pub fn is_stopped(hart: &Hart) -> bool
    ensures { result ≡ is_stopped hart.now.state }
{
    match hart.state {
        HartState::Running => false,
        HartState::Exited(_) => true,
        HartState::Faulted(_) => true,
    }
}
