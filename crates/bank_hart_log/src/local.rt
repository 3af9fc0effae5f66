//! Local steps over the code of an image.
ghost use Rattle.std.specs.Prelude.{◌≡◌};
ghost use Rattle.std.specs.Option.{is_some};
ghost use Rattle.hart_local.specs.LocalStep.{is_local_next, local_at};
ghost use Rattle.mem_store.specs.Access.{fetched};
ghost use Rattle.mem_store.specs.Image.{image_memory};
ghost use Rattle.hart_step.specs.Hart.{hart_of};
ghost use Rattle.hart_local.specs.CodeMemory.{code_in};

use bank_step::{is_executable, is_unwritable, number_at};
use hart_step::{Hart, HartState, is_local};
use image::Image;
use isa_decode::decode;
use std::alloc::Allocator;

// The word at an address, if its four bytes are executable and not writable.
#[tactic(auto, using(crate::proofs::CodeLemmas::code_word_is))]
fn code_word<A: Allocator>(image: &Image<A>, address: u32) -> Option<u32>
    ensures { result ≡ fetched (code_in (image_memory image.now)) address }
{
    let segments = image.segments();
    if is_executable(segments, address) && is_unwritable(segments, address) {
        Some(number_at(segments, address))
    } else {
        None
    }
}

// Whether code at an address spells a local instruction.
#[tactic(auto, unfolding(hart_local::specs::LocalStep::local_at))]
fn spells_local<A: Allocator>(image: &Image<A>, address: u32) -> bool
    ensures { result ≡ is_some (local_at (code_in (image_memory image.now)) address) }
{
    let Some(word) = code_word(image, address) else {
        return false;
    };
    match decode(word) {
        Some(instr) => is_local(instr),
        None => false,
    }
}

/// Whether a hart's next step is local: it runs, and code at its `pc` spells a local instruction.
pub fn is_local_next<A: Allocator>(image: &Image<A>, hart: &Hart) -> bool
    ensures { result ≡ is_local_next (code_in (image_memory image.now)) (hart_of hart.now) }
{
    match hart.state {
        HartState::Running => spells_local(image, hart.pc),
        HartState::Exited(_) | HartState::Faulted(_) => false,
    }
}
