//! Harts that wait. One spins: a hart that is chosen again and again is compared with how it was
//! some choices before, and with the same `pc` and registers it is likely to wait for something
//! that hasn't changed. Another says so, by `pause`.

ghost use Rattle.std.specs.Prelude.{◌≡◌, ◌||◌, true, Some};
ghost use Rattle.std.specs.Option.{option_map};
ghost use Rattle.hart_step.specs.Hart.{hart_of};
ghost use Rattle.mem_store.specs.Access.{fetched};
ghost use Rattle.machine.specs.Running.{is_running};
ghost use Rattle.sched_draw.specs.Drawn.{watch_of};
ghost use Rattle.sched_draw.specs.Spinning.{is_back, same_registers, watch_begun, watch_continued, watch_after, spins, is_pause, pauses};

use hart_step::{Hart, HartState};
use mem_store::Store;

// At most so many choices of a hart don't change how it is remembered: a loop of 65 steps is noticed.
const LONGEST: u32 = 64;

// The word of `pause`, which is `fence w,0` (Unprivileged ISA, "Zihintpause").
const PAUSE: u32 = 0x0100_000f;

// Its first byte, as of each fence.
const FIRST_BYTE: u8 = 0x0f;

/// A hart that is watched.
#[derive(Clone, Copy, Drop)]
pub(crate) struct Watch {
    // Its number.
    hart: u32,
    // The hart as it was at a choice of it.
    seen: Hart,
    // How many further choices of it don't change that.
    left: u32,
    // How many will not then.
    span: u32,
}

// Whether a hart has the same registers as before. Asked for at few choices, so it isn't inlined:
// what is asked at each of them then is.
#[inline(never)]
#[tactic(auto, using(crate::proofs::SpinLemmas::no_register, crate::proofs::SpinLemmas::register_more))]
fn has_registers_of(seen: &Hart, now: &Hart) -> bool
    ensures { result
        ≡ same_registers 32 (hart_of seen.now).registers (hart_of now.now).registers }
{
    let mut same = true;
    'registers: for r in 0..seen.registers.len() {
        same &= seen.registers[r] == now.registers[r];
    }
    same
}

// Whether a hart has not stopped.
#[inline]
fn is_running(hart: &Hart) -> bool
    ensures { result ≡ is_running hart.now.state }
{
    match hart.state {
        HartState::Running => true,
        HartState::Exited(_) | HartState::Faulted(_) => false,
    }
}

// Whether a hart that runs has the same `pc` and registers as before.
#[inline]
fn is_back(seen: &Hart, now: &Hart) -> bool
    ensures { result ≡ is_back (hart_of seen.now) (hart_of now.now) }
{
    seen.pc == now.pc && is_running(now) && has_registers_of(seen, now)
}

impl Watch {
    /// Watches a hart that wasn't chosen last.
    pub(crate) fn begin(hart: u32, now: &Hart) -> Watch
        ensures { watch_of result ≡ watch_begun hart (hart_of now.now) }
    {
        Watch {
            hart,
            seen: *now,
            left: 1,
            span: 2,
        }
    }

    // Goes on after a further choice of the hart.
    #[inline]
    fn go_on(&mut self, now: &Hart)
        ensures { watch_of self.new ≡ watch_continued (hart_of now.now) (watch_of self.old) }
    {
        if self.left > 0 {
            self.left -= 1;
            return;
        }
        self.seen = *now;
        self.left = self.span;
        if self.span < LONGEST {
            self.span *= 2;
        }
    }
}

// Looks at a hart that is chosen, and returns whether it spins.
#[inline]
fn look(watch: &mut Option<Watch>, hart: u32, now: &Hart) -> bool
    ensures spins { result ≡ spins (option_map watch_of watch.old) hart (hart_of now.now) }
    ensures watch { option_map watch_of watch.new
        ≡ Some (watch_after (option_map watch_of watch.old) hart (hart_of now.now)) }
{
    if let Some(known) = watch {
        if known.hart == hart {
            let does_spin = is_back(&known.seen, now);
            known.go_on(now);
            return does_spin;
        }
    }
    *watch = Some(Watch::begin(hart, now));
    false
}

// Whether the byte at an address is the first of `pause`.
#[inline]
fn begins_pause<S: Store>(store: &S, address: u32) -> bool
    ensures { is_pause (fetched (S.memory store.now) address) ≡ true → result ≡ true }
{
    match store.peek(address) {
        Some(byte) => byte == FIRST_BYTE,
        None => false,
    }
}

// Whether a hart runs and comes to a `pause`. Many choices are of harts that have stopped, so that
// is asked first. Then one byte is read, and the word only where that is the first of a fence. The
// decoded instruction would be at hand too, but a second call of `instruction` beside that of the
// step keeps the compiler from inlining it there: a step of each schedule would take 6 host
// instructions more.
#[inline]
#[tactic(auto, unfolding(crate::specs::Spinning::pauses))]
fn pauses<S: Store>(store: &S, now: &Hart) -> bool
    ensures { result ≡ pauses (S.memory store.now) (hart_of now.now) }
{
    if !is_running(now) {
        return false;
    }
    if !begins_pause(store, now.pc) {
        return false;
    }
    store.fetch(now.pc) == Some(PAUSE)
}

/// Looks at a hart that is chosen, and returns whether it waits: it spins or pauses.
#[inline]
pub(crate) fn waits<S: Store>(watch: &mut Option<Watch>, hart: u32, now: &Hart, store: &S) -> bool
    ensures waits { result ≡ (spins (option_map watch_of watch.old) hart (hart_of now.now)
        || pauses (S.memory store.now) (hart_of now.now)) }
    ensures watch { option_map watch_of watch.new
        ≡ Some (watch_after (option_map watch_of watch.old) hart (hart_of now.now)) }
{
    let does_spin = look(watch, hart, now);
    does_spin || pauses(store, now)
}
