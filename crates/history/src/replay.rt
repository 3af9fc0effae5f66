//! Replays a history: an entry's local steps in a loop, then its last step. The list of choices
//! that it stands for is never held, so an entry of 2^32 - 1 local steps takes no memory.
ghost use Rattle.std.specs.Prelude.{◌≡◌, ◌<◌, length};
ghost use Rattle.std.specs.List.{All};
ghost use Rattle.machine.specs.World.{step, run};
ghost use Rattle.machine.specs.State.{state};
ghost use Rattle.history.specs.History.{entry_choices, expanded};

use crate::Entry;
use machine::{Choice, Machine};
use mem_flat::FlatStore;
use std::alloc::Allocator;

/// Runs the choices that a history stands for. Allocates nothing.
#[tactic(auto, using(crate::proofs::ReplayLemmas::entries_more, crate::proofs::ReplayLemmas::entries_none))]
pub fn replay_history<A: Allocator>(machine: &mut Machine<FlatStore<A>, A>, history: &[Entry])
    requires { All (λ e. e.hart < length (state machine.old).harts) history.now }
    ensures replayed { state machine.new ≡ run (state machine.old) (expanded history.now) }
    ensures harts { length (state machine.new).harts ≡ length (state machine.old).harts }
{
    'entries: for entry in history {
        replay_entry(machine, *entry);
    }
}

// The choices of one entry.
fn replay_entry<A: Allocator>(machine: &mut Machine<FlatStore<A>, A>, entry: Entry)
    requires { entry.hart < length (state machine.old).harts }
    ensures replayed { state machine.new ≡ run (state machine.old) (entry_choices entry) }
    ensures harts { length (state machine.new).harts ≡ length (state machine.old).harts }
{
    let plain = Choice {
        hart: entry.hart,
        refuse: false,
    };
    'locals: for _ in 0..entry.local {
        take_step(machine, plain);
    }
    let last = Choice {
        hart: entry.hart,
        refuse: entry.refuse,
    };
    take_step(machine, last);
}

// One step. Over a flat store it allocates nothing.
#[inline]
fn take_step<A: Allocator>(machine: &mut Machine<FlatStore<A>, A>, choice: Choice)
    requires { choice.hart < length (state machine.old).harts }
    ensures taken { state machine.new ≡ step (state machine.old) choice }
    ensures harts { length (state machine.new).harts ≡ length (state machine.old).harts }
{
    let Ok(()) = machine.step(choice) else {
        unreachable!();
    };
}
