//! What a choice did, as the things that its row tells.

ghost use Rattle.std.specs.Prelude.{◌≡◌, ◌++◌, ◌∷◌, IfOk, OnOk};
ghost use Rattle.trace_text.specs.Effects.{access_effect, bytes_set, effects_of, exit_of, effect_list, fault_effects, outcome, access_place, register_set, sc_result, step_effects, without_word};

use crate::effect::Effect;
use hart_step::{AccessKind, Cause, HartState};
use std::alloc::{AllocError, Allocator};
use trace_steps::{Explained, Failure, Told, ToldAccess, Written};

// Whether a store-conditional stored, and why it did not.
fn result_of(failure: Option<Failure>) -> Effect
    ensures { result ≡ sc_result failure }
{
    match failure {
        None => Effect::Succeeds,
        Some(why) => Effect::Fails(why),
    }
}

// Of a store-conditional whether it succeeded, and why it failed.
#[tactic(auto, unfolding(crate::specs::Effects::outcome))]
fn outcome(access: Option<ToldAccess>, failure: Option<Failure>) -> Option<Effect>
    ensures { result ≡ outcome access failure }
{
    let access = access?;
    match access.kind {
        AccessKind::StoreConditional => Some(result_of(failure)),
        AccessKind::Load | AccessKind::Store | AccessKind::LoadReserved | AccessKind::Amo => None,
    }
}

// The register that was written.
#[tactic(auto, unfolding(crate::specs::Effects::register_set))]
fn register_set(written: Option<Written>) -> Option<Effect>
    ensures { result ≡ register_set written }
{
    Some(Effect::Sets(written?))
}

// The bytes of an access that stored them; its place alone where they are not mapped.
fn bytes_set(access: ToldAccess) -> Effect
    ensures { result ≡ bytes_set access.address access.before access.after }
{
    match (access.before, access.after) {
        (Some(before), Some(after)) => Effect::Stores {
            address: access.address,
            before,
            after,
        },
        (None, _) | (Some(_), None) => Effect::Accesses(access.address),
    }
}

// What was accessed: the bytes that were stored, or the place alone.
#[tactic(auto, unfolding(crate::specs::Effects::access_effect))]
fn access_effect(access: Option<ToldAccess>, failure: Option<Failure>) -> Option<Effect>
    ensures { result ≡ access_effect access failure }
{
    let access = access?;
    Some(match (access.kind, failure) {
        (AccessKind::Load | AccessKind::LoadReserved, _) => Effect::Accesses(access.address),
        (AccessKind::StoreConditional, Some(_)) => Effect::Accesses(access.address),
        (AccessKind::StoreConditional | AccessKind::Store | AccessKind::Amo, _) => {
            bytes_set(access)
        }
    })
}

// The place of an access.
#[tactic(auto, unfolding(crate::specs::Effects::access_place))]
fn access_place(access: Option<ToldAccess>) -> Option<Effect>
    ensures { result ≡ access_place access }
{
    let access = access?;
    Some(Effect::Accesses(access.address))
}

// That the hart stopped itself.
#[tactic(auto, unfolding(crate::specs::Effects::exit_of))]
fn exit_of(state: HartState) -> Option<Effect>
    ensures { result ≡ exit_of state }
{
    match state {
        HartState::Exited(status) => Some(Effect::Exits(status)),
        HartState::Running | HartState::Faulted(_) => None,
    }
}

// What a choice did for which no word was fetched.
#[tactic(auto, unfolding(crate::specs::Effects::without_word))]
fn without_word(state: HartState) -> Effect
    ensures { result ≡ without_word state }
{
    match state {
        HartState::Faulted(Cause::FetchAccess) => Effect::Faults(Cause::FetchAccess),
        _ => Effect::Rests,
    }
}

// Appends a thing that may be absent.
fn add<A: Allocator>(effects: &mut Vec<Effect, A>, effect: Option<Effect>) -> Result<(), AllocError>
    ensures { OnOk result (effects.new.items ≡ effects.old.items ++ effect_list effect) }
{
    if let Some(effect) = effect {
        effects.push(effect)?;
    }
    Ok(())
}

// Appends what an instruction did that was no fault.
fn add_step<A: Allocator>(
    effects: &mut Vec<Effect, A>,
    told: &Told,
    failure: Option<Failure>,
) -> Result<(), AllocError>
    ensures { OnOk result (effects.new.items ≡ effects.old.items ++ step_effects told.now failure) }
{
    add(effects, outcome(told.access, failure))?;
    add(effects, register_set(told.written))?;
    add(effects, access_effect(told.access, failure))?;
    add(effects, exit_of(told.state))
}

// Appends the fault of an instruction, and the place of its access.
fn add_fault<A: Allocator>(
    effects: &mut Vec<Effect, A>,
    cause: Cause,
    access: Option<ToldAccess>,
) -> Result<(), AllocError>
    ensures { OnOk result (effects.new.items ≡ effects.old.items ++ fault_effects cause access) }
{
    effects.push(Effect::Faults(cause))?;
    add(effects, access_place(access))
}

/// What a choice did, in order.
#[tactic(auto, unfolding(crate::specs::Effects::effects_of))]
pub(crate) fn effects_of<A: Allocator>(
    alloc: A,
    explained: &Explained,
) -> Result<Vec<Effect, A>, AllocError>
    ensures { IfOk result (λ effects. effects.items ≡ effects_of explained.now) }
{
    let mut effects = Vec::new(alloc);
    let told = &explained.told;
    match (told.word, told.state) {
        (None, state) => effects.push(without_word(state))?,
        (Some(_), HartState::Faulted(cause)) => add_fault(&mut effects, cause, told.access)?,
        (Some(_), HartState::Running | HartState::Exited(_)) => {
            add_step(&mut effects, told, explained.failure)?
        }
    }
    Ok(effects)
}
