//! One choice, done and told, with why its store-conditional failed.
ghost use Rattle.std.specs.Prelude.{◌≡◌, ◌<◌, length, OnErr, OnOk, IfOk, IsTrue};
ghost use Rattle.machine.specs.Machine.{world};
ghost use Rattle.trace_steps.specs.Known.{Knows};
ghost use Rattle.trace_steps.specs.Latest.{latest_words};
ghost use Rattle.trace_steps.specs.Ends.{kept_ends};
ghost use Rattle.trace_steps.specs.Explains.{explained, follow, followed};

use crate::ending::{Ending, Endings};
use crate::failure::{Failure, told_failure};
use crate::held::Held;
use crate::latest::Latest;
use crate::telling::tell_step;
use crate::told::Told;
use machine::{Choice, Machine};
use mem_store::Store;
use std::alloc::{AllocError, Allocator};

/// What one choice did, and why its store-conditional failed.
#[derive(Clone, Copy, PartialEq, Eq)]
pub struct Explained {
    /// What the choice did.
    pub told: Told,
    /// Why its store-conditional did not store; none if it stored, and if the choice did no
    /// store-conditional or faulted.
    pub failure: Option<Failure>,
}

/// Does a choice, whose number is `number`, and tells what it did and why its store-conditional
/// failed. `latest` has to know the machine's reservations, and then knows those after the step;
/// `endings` takes in those that the step has ended. Only the memory of the host may refuse, and
/// then nothing has changed.
pub fn explain_step<S: Store, A: Allocator>(
    machine: &mut Machine<S, A>,
    latest: &mut Latest,
    endings: &mut Endings,
    choice: Choice,
    number: u64,
) -> Result<Explained, AllocError>
    requires there { choice.hart < length (world S.memory machine.old).harts }
    requires known { Knows (latest_words latest.old) (world S.memory machine.old).reserved }
    ensures followed { OnOk result (followed (world S.memory machine.new) (kept_ends endings.new)
        ≡ follow (followed (world S.memory machine.old) (kept_ends endings.old)) number choice) }
    ensures explained { IfOk result (λ e.
        e ≡ explained (followed (world S.memory machine.old) (kept_ends endings.old)) choice) }
    ensures known { Knows (latest_words latest.new) (world S.memory machine.new).reserved }
    ensures unchanged { OnErr result (followed (world S.memory machine.new) (kept_ends endings.new)
        ≡ followed (world S.memory machine.old) (kept_ends endings.old)) }
    ensures refused { OnErr result (IsTrue S.grows) }
    ensures harts { length (world S.memory machine.new).harts
        ≡ length (world S.memory machine.old).harts }
{
    let number_of_harts = machine.harts();
    let hart = choice.hart as usize;
    let before = Held::new(latest, machine.reserve());
    let told = tell_step(machine, latest, choice)?;
    let failure = told_failure(&told, before.word(hart), endings.of(hart));
    let after = Held::new(latest, machine.reserve());
    let step = Ending {
        hart: choice.hart,
        choice: number,
    };
    endings.note(number_of_harts, &before, &after, step);
    Ok(Explained { told, failure })
}
