//! Ways for a run to fail.
ghost use Rattle.std.specs.Prelude.{◌≡◌, true, false, map};
ghost use Rattle.cmd_shrink.specs.Failure.{
  failure_of,
  lowest_fault,
  BreaksRule,
  HasFaulted,
  HasFaultedAt,
};
ghost use Rattle.hart_step.specs.Hart.{hart_of};

use hart_step::{Cause, Hart, HartState};
use machine::Choice;
use object_library::{Kind, Verdict, judge};
use property_judge::Property;

/// How a run fails.
#[derive(Clone, Copy, PartialEq, Eq)]
pub enum Failure {
    /// This property is broken: it doesn't hold at the start, or not after one of the choices.
    BrokenProperty(Property),
    /// The rule of this kind is broken.
    Broken(Kind),
    /// A hart has faulted.
    Faulted {
        /// The hart's number, from 0.
        number: usize,
        /// The cause of its fault.
        cause: Cause,
        /// The address of the instruction that faulted.
        pc: u32,
    },
    /// However the harts go on for `steps` further steps, one still runs.
    Hangs {
        /// Number of further steps of the harts in turn, and of any one hart alone before that.
        steps: usize,
    },
}

// The fault of the lowest hart that has one.
fn first_fault(harts: &[Hart]) -> Option<Failure>
    ensures { result ≡ lowest_fault 0 (map hart_of harts.now) }
{
    'harts: for (number, hart) in harts.iter().enumerate() {
        if let HartState::Faulted(cause) = hart.state {
            return Some(Failure::Faulted {
                number,
                cause,
                pc: hart.pc,
            });
        }
    }
    None
}

/// How a run fails at its end, by its inputs, its choices and its harts: under a rule if the
/// verdict is `Broken`, and without one if a hart has faulted, of which the lowest counts.
pub(crate) fn failure_of(
    rule: Option<Kind>,
    inputs: &[u32],
    choices: &[Choice],
    harts: &[Hart],
) -> Option<Failure>
    ensures { result ≡ failure_of rule inputs.now choices.now (map hart_of harts.now) }
{
    match rule {
        None => first_fault(harts),
        Some(kind) => match judge(kind, inputs, choices, harts) {
            Verdict::Kept => None,
            Verdict::Broken => Some(Failure::Broken(kind)),
        },
    }
}

/// Whether the verdict on a run is that the rule of a kind is broken.
pub(crate) fn breaks_rule(kind: Kind, inputs: &[u32], choices: &[Choice], harts: &[Hart]) -> bool
    ensures broken { result ≡ true → BreaksRule kind inputs.now choices.now (map hart_of harts.now) }
    ensures kept { result ≡ false → BreaksRule kind inputs.now choices.now (map hart_of harts.now) → ⊥ }
{
    match judge(kind, inputs, choices, harts) {
        Verdict::Kept => false,
        Verdict::Broken => true,
    }
}

// Whether two causes are the same.
fn is_same(one: Cause, other: Cause) -> bool
    ensures same { result ≡ true → one ≡ other }
    ensures differs { result ≡ false → one ≡ other → ⊥ }
{
    one == other
}

// Whether a hart has faulted with this cause and at this pc.
fn has_faulted(hart: &Hart, cause: Cause, pc: u32) -> bool
    ensures faulted { result ≡ true → HasFaulted (hart_of hart.now) cause pc }
    ensures not_so { result ≡ false → HasFaulted (hart_of hart.now) cause pc → ⊥ }
{
    match hart.state {
        HartState::Faulted(found) => is_same(found, cause) && hart.pc == pc,
        HartState::Running | HartState::Exited(_) => false,
    }
}

/// Whether the hart with this number has faulted with this cause at this pc.
pub(crate) fn has_faulted_at(harts: &[Hart], number: usize, cause: Cause, pc: u32) -> bool
    ensures failed { result ≡ true → HasFaultedAt number cause pc (map hart_of harts.now) }
    ensures passed { result ≡ false → HasFaultedAt number cause pc (map hart_of harts.now) → ⊥ }
{
    match harts.get(number) {
        Some(hart) => has_faulted(hart, cause, pc),
        None => false,
    }
}
