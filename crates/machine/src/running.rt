//! Which harts run.

ghost use Rattle.std.specs.Prelude.{◌≡◌, map};
ghost use Rattle.hart_step.specs.Hart.{hart_of};
ghost use Rattle.machine.specs.Running.{runs};

use hart_step::{Hart, HartState};

/// Whether a hart exists and runs: it has neither exited nor faulted.
#[inline]
pub fn runs(harts: &[Hart], number: u32) -> bool
    ensures { result ≡ runs (map hart_of harts.now) number }
{
    match harts.get(number as usize) {
        Some(hart) => matches!(hart.state, HartState::Running),
        None => false,
    }
}
