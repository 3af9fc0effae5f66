//! The work of one hart's thread.
ghost use Rattle.std.specs.Prelude.{◌≡◌, ◌<◌, ◌≤◌, IfOk, MatchOption};

use crate::entered::Entered;
use crate::fault::CommitFault;
use crate::running::Running;
use crate::seat::Seat;
use crate::spent::Spent;
use crate::terms::Terms;
use std::alloc::Allocator;
use std::sync::ledger::Share;
use std::sync::{Mutex, Wait};
use thread_gate::{Gate, Spinning};

/// Makes a hart's choices until it has stopped, or its budget or the total of all harts is used up:
/// one entry after another. A hart that spins lets other threads run between its entries.
pub fn work<T: Terms, A: Allocator, G: Gate, R: Wait>(
    rt: &R,
    running: &Mutex<Running<T, A>>,
    gate: &G,
    budget: u32,
    hart: u32,
    ticket: Share<T>,
) -> Result<Spent<T>, CommitFault>
    requires { (ticket.parts ≡ 1) × (ticket.amount ≡ 1) }
{
    let mut ticket = ticket;
    let mut seat = running.lock(rt).seat(hart)?;
    let mut spinning = Spinning::new(seat.slot());
    let mut left = budget;
    'choices: while left > 0 {
        let Some(made) = enter(rt, running, gate, &mut seat, &mut ticket, left)? else {
            return Ok(Spent { share: ticket });
        };
        spinning.look(seat.slot());
        left -= made;
    }
    // The hart's last commit has already returned that it is done, so this is not reached.
    Err(CommitFault::Stale)
}

// Makes an entry of a hart with `left` choices, and returns their number; none when the hart is done.
// It does local steps as long as the next one is local, then one step under the lock. Before that
// the gate is called, without a lock. If less than that is left of the total, the hart begins its
// entry anew, with no more choices than are left.
fn enter<T: Terms, A: Allocator, G: Gate, R: Wait>(
    rt: &R,
    running: &Mutex<Running<T, A>>,
    gate: &G,
    seat: &mut Seat<A>,
    ticket: &mut Share<T>,
    left: u32,
) -> Result<Option<u32>, CommitFault>
    requires { (seat.old.local ≡ 0) × (ticket.old.amount ≡ 1) }
    ensures parts { ticket.new.parts ≡ ticket.old.parts }
    ensures made { IfOk result (λ made. MatchOption made (ticket.new.amount ≡ 0) (λ n.
        (0 < n) × (n ≤ left) × (ticket.new.amount ≡ 1) × (seat.new.local ≡ 0))) }
{
    let hart = seat.hart();
    let mut limit = left;
    'tries: while limit > 0 {
        seat.advance_local(limit - 1);
        let local = seat.local();
        gate.arrive(seat.hart(), local);
        // Its own statement, so that the lock is free before the match, which may take it again.
        let entered = running.lock(rt).commit::<G>(seat, ticket, left, limit)?;
        match entered {
            Entered::Done => return Ok(None),
            Entered::GoesOn => return Ok(Some(local + 1)),
            Entered::Short(room) => {
                *seat = running.lock(rt).seat(hart)?;
                limit = room;
            }
        }
    }
    // A segment that is too long begins anew with at least one choice, so this is not reached.
    Err(CommitFault::Stale)
}
