//! One choice, done and told.
ghost use Rattle.std.specs.Prelude.{◌≡◌, ◌<◌, length, option_map, OnOk, OnErr, IfOk, IfSome, IsTrue};
ghost use Rattle.mem_store.specs.Memory.{Memory};
ghost use Rattle.hart_step.specs.Hart.{HartValue};
ghost use Rattle.machine.specs.Machine.{world};
ghost use Rattle.machine.specs.World.{World, step};
ghost use Rattle.trace_steps.specs.Bytes.{bytes_number, IsSize};
ghost use Rattle.trace_steps.specs.Known.{Knows};
ghost use Rattle.trace_steps.specs.Latest.{latest_words};
ghost use Rattle.trace_steps.specs.Met.{IsMet};
ghost use Rattle.trace_steps.specs.Told.{hart_at, told_access, told_of, told_choice};

use crate::bytes::number_in;
use crate::destination::written;
use crate::latest::Latest;
use crate::met::{Met, meet};
use crate::told::{Told, ToldAccess};
use hart_step::Access;
use machine::{Choice, Machine};
use mem_store::Store;
use std::alloc::{AllocError, Allocator};

// An access, with the number that its bytes spelled before the step, over the memory after it.
fn told_access<S: Store>(
    store: &S,
    access: Option<Access>,
    before: Option<u32>,
) -> Option<ToldAccess>
    requires { IfSome access (λ a. IsSize a.size) }
    ensures { (m : Memory) → before ≡ bytes_number m access
        → result ≡ option_map (told_access m (S.memory store.now)) access }
{
    let after = number_in(store, access);
    let Access {
        kind,
        address,
        size,
    } = access?;
    Some(ToldAccess {
        kind,
        address,
        size,
        before,
        after,
    })
}

// What a choice did to a hart that met this, told over the machine after it.
fn tell<S: Store, A: Allocator>(
    machine: &Machine<S, A>,
    latest: &Latest,
    choice: Choice,
    met: Met,
) -> Told
    requires there { choice.hart < length (world S.memory machine.now).harts }
    requires known { Knows (latest_words latest.now) (world S.memory machine.now).reserved }
    requires size { IfSome met.access (λ a. IsSize a.size) }
    ensures { (old : HartValue) (before : World) → IsMet met old before.memory
        → result ≡ told_of choice old (hart_at (world S.memory machine.now) choice.hart)
        before (world S.memory machine.now) }
{
    let number = choice.hart as usize;
    let hart = machine.hart(number);
    Told {
        choice,
        pc: met.pc,
        word: met.word,
        instr: met.instr,
        access: told_access(machine.store(), met.access, met.before),
        written: written(hart, met.instr),
        reserved: latest.reserved(machine.reserve(), number),
        next: hart.pc,
        state: hart.state,
    }
}

/// Does a choice, and tells what it did. `latest` has to know the machine's reservations, and then
/// knows those after the step. Only the memory of the host may refuse, and then nothing has
/// changed.
pub fn tell_step<S: Store, A: Allocator>(
    machine: &mut Machine<S, A>,
    latest: &mut Latest,
    choice: Choice,
) -> Result<Told, AllocError>
    requires there { choice.hart < length (world S.memory machine.old).harts }
    requires known { Knows (latest_words latest.old) (world S.memory machine.old).reserved }
    ensures stepped { OnOk result (world S.memory machine.new ≡ step (world S.memory machine.old) choice) }
    ensures told { IfOk result (λ t. t ≡ told_choice (world S.memory machine.old) choice) }
    ensures known { Knows (latest_words latest.new) (world S.memory machine.new).reserved }
    ensures unchanged { OnErr result (world S.memory machine.new ≡ world S.memory machine.old) }
    ensures refused { OnErr result (IsTrue S.grows) }
    ensures harts { length (world S.memory machine.new).harts
        ≡ length (world S.memory machine.old).harts }
{
    let number = choice.hart as usize;
    let met = meet(machine.hart(number), machine.store());
    machine.step(choice)?;
    latest.note(machine.reserve(), number, met.access);
    Ok(tell(machine, latest, choice, met))
}
