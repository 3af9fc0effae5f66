//! Why a store-conditional fails.
ghost use Rattle.std.specs.Prelude.{◌≡◌};
ghost use Rattle.trace_steps.specs.Failures.{sc_failure, failure_accessing, told_failure, with_reservation, without_reservation};

use crate::ending::Ending;
use crate::told::{Told, ToldAccess};
use hart_step::{AccessKind, HartState};

/// Why a store-conditional did not store.
#[derive(Clone, Copy, PartialEq, Eq)]
pub enum Failure {
    /// Its hart had reserved no word, or had ended its reservation itself.
    NotReserved,
    /// A step of another hart had ended the reservation.
    Ended(Ending),
    /// Its hart had reserved the word at this address, and not its own.
    OtherWord(u32),
    /// The choice has the mark, and the reservation was there.
    Refused,
}

// Why a hart has no reservation, by the step that ended its last one.
fn without_reservation(hart: u32, last: Option<Ending>) -> Failure
    ensures { result ≡ without_reservation hart last }
{
    match last {
        Some(step) if step.hart != hart => Failure::Ended(step),
        _ => Failure::NotReserved,
    }
}

// Why a store-conditional of a hart with a reservation of a word fails, if it does.
fn with_reservation(word: u32, address: u32, refuse: bool) -> Option<Failure>
    ensures { result ≡ with_reservation word address refuse }
{
    if word != address {
        Some(Failure::OtherWord(word))
    } else if refuse {
        Some(Failure::Refused)
    } else {
        None
    }
}

// Why a store-conditional of a hart fails, if it does.
fn sc_failure(
    held: Option<u32>,
    address: u32,
    refuse: bool,
    hart: u32,
    last: Option<Ending>,
) -> Option<Failure>
    ensures { result ≡ sc_failure held address refuse hart last }
{
    match held {
        Some(word) => with_reservation(word, address, refuse),
        None => Some(without_reservation(hart, last)),
    }
}

// The same of an access, if it is one of a store-conditional.
fn failure_accessing(
    access: Option<ToldAccess>,
    refuse: bool,
    hart: u32,
    held: Option<u32>,
    last: Option<Ending>,
) -> Option<Failure>
    ensures { result ≡ failure_accessing access refuse hart held last }
{
    let access = access?;
    match access.kind {
        AccessKind::StoreConditional => sc_failure(held, access.address, refuse, hart, last),
        AccessKind::Load | AccessKind::Store | AccessKind::LoadReserved | AccessKind::Amo => None,
    }
}

/// Why the store-conditional of a choice failed, by what its hart had reserved before it and by the
/// step that ended the hart's last reservation; `None` if it stored, or if the choice did none.
pub(crate) fn told_failure(told: &Told, held: Option<u32>, last: Option<Ending>) -> Option<Failure>
    ensures { result ≡ told_failure told.now held last }
{
    match told.state {
        HartState::Running | HartState::Exited(_) => {
            failure_accessing(
                told.access,
                told.choice.refuse,
                told.choice.hart,
                held,
                last,
            )
        }
        HartState::Faulted(_) => None,
    }
}
