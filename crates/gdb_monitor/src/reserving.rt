//! The word that a hart has reserved, found by its last load-reserved.
ghost use Rattle.std.specs.Prelude.{◌≡◌, ◌<◌, ℕ, Some, length, IfOk};
ghost use Rattle.hart_reservations.specs.Limit.{most_harts};
ghost use Rattle.hart_reservations.specs.Reserve.{marks};
ghost use Rattle.debug_session.specs.Paged.{paged_world};
ghost use Rattle.debug_session.specs.Session.{session, world_at};
ghost use Rattle.gdb_monitor.specs.Reserving.{reserves, reserved_by, found_word};

use debug_session::{Debugger, PagedMachine, Wanted, accessed};
use hart_reservations::Reserve;
use hart_step::Access;
use machine::Choice;
use std::alloc::{AllocError, Allocator};

// Looks for the choices in which a hart reserves a word.
#[derive(Clone, Copy)]
struct Reserving {
    hart: usize,
}

// The word of an access, if a hart has it reserved.
fn reserved_by(reserve: &Reserve, hart: usize, access: Option<Access>) -> Option<u32>
    requires { hart < most_harts }
    ensures { result ≡ reserved_by (marks reserve.now hart) access }
{
    let access = access?;
    if reserve.holds(hart, access.address) {
        Some(access.address)
    } else {
        None
    }
}

// The same of the reservations of a machine.
fn made_by<A: Allocator + Copy>(
    machine: &PagedMachine<A>,
    hart: usize,
    access: Option<Access>,
) -> Option<u32>
    requires { hart < length (paged_world machine.now).harts }
    ensures { result ≡ reserved_by ((paged_world machine.now).reserved hart) access }
{
    reserved_by(machine.reserve(), hart, access)
}

impl<A: Allocator + Copy> Wanted<A> for Reserving {
    type Reason = u32;

    ghost reason = { λ r. reserves r.hart };

    #[tactic(auto, using(crate::proofs::ReservingLemmas::made_there, crate::proofs::ReservingLemmas::made_not))]
    fn step(
        &self,
        machine: &mut PagedMachine<A>,
        choice: Choice,
    ) -> Result<Option<u32>, AllocError> {
        let access = accessed(machine, choice.hart);
        machine.step(choice)?;
        if choice.hart as usize == self.hart {
            Ok(made_by(machine, self.hart, access))
        } else {
            Ok(None)
        }
    }
}

// The word that a search has found, or 0.
fn found_word(reason: Option<u32>) -> u32
    ensures { result ≡ found_word reason }
{
    match reason {
        Some(word) => word,
        None => 0,
    }
}

// The word that a hart has reserved; it has none but this one.
#[tactic(auto, using(trace_steps::proofs::MarkLemmas::found))]
fn word_of(reserve: &Reserve, hart: usize, word: u32) -> Option<u32>
    requires there { hart < most_harts }
    requires known { (other : ℕ) → marks reserve.now hart ≡ Some other → word ≡ other }
    ensures { result ≡ marks reserve.now hart }
{
    if reserve.holds(hart, word) {
        Some(word)
    } else {
        None
    }
}

/// The word that a hart has reserved at the position. Reservations can only be asked whether they
/// are of a word, so the hart's last load-reserved is searched for.
pub fn reserved_at<A: Allocator + Copy>(
    alloc: A,
    debugger: &Debugger<A>,
    hart: usize,
) -> Result<Option<u32>, AllocError>
    requires { hart
        < length (world_at (session debugger.now) (session debugger.now).position).harts }
    ensures { IfOk result (λ word. word
        ≡ (world_at (session debugger.now) (session debugger.now).position).reserved hart) }
{
    let wanted = Reserving { hart };
    let target = debugger.last_below(alloc, &wanted, debugger.position())?;
    let word = found_word(target.reason());
    Ok(word_of(debugger.machine().reserve(), hart, word))
}
