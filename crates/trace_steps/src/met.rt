//! What a hart meets at its step.
ghost use Rattle.std.specs.Prelude.{◌≡◌, IfSome, option_and_then};
ghost use Rattle.isa_table.specs.Decoded.{decoded};
ghost use Rattle.hart_step.specs.Hart.{hart_of, registers_of};
ghost use Rattle.hart_step.specs.Locality.{access_if};
ghost use Rattle.trace_steps.specs.Bytes.{IsSize};
ghost use Rattle.trace_steps.specs.Told.{word_met};
ghost use Rattle.trace_steps.specs.Met.{IsMet};

use crate::bytes::number_in;
use hart_step::{Access, Hart, HartState, access_by};
use isa_decode::decode;
use isa_table::Instr;
use mem_store::Store;

/// What a hart meets at its step, before it is done.
#[derive(Clone, Copy)]
pub struct Met {
    /// Where it stands.
    pub pc: u32,
    /// The word that it fetches.
    pub word: Option<u32>,
    /// The instruction of that word.
    pub instr: Option<Instr>,
    /// The access of that instruction.
    pub access: Option<Access>,
    /// The number that the bytes of the access spell.
    pub before: Option<u32>,
}

// The word that a hart fetches, if it runs and may.
fn word_met<S: Store>(hart: &Hart, store: &S) -> Option<u32>
    ensures { result ≡ word_met hart.now.state (S.memory store.now) hart.now.pc }
{
    match hart.state {
        HartState::Running => store.fetch(hart.pc),
        HartState::Exited(_) | HartState::Faulted(_) => None,
    }
}

// The instruction of a word.
fn instr_of(word: Option<u32>) -> Option<Instr>
    ensures { result ≡ option_and_then decoded word }
{
    decode(word?)
}

// The access of data that an instruction has.
#[tactic(auto, using(crate::proofs::SizeLemmas::size_of_access))]
fn access_if(hart: &Hart, instr: &Option<Instr>) -> Option<Access>
    ensures value { result ≡ access_if instr.now (registers_of hart.now.registers) }
    ensures size { IfSome result (λ a. IsSize a.size) }
{
    match *instr {
        Some(instr) => access_by(hart, instr),
        None => None,
    }
}

/// What a hart meets at its step.
pub fn meet<S: Store>(hart: &Hart, store: &S) -> Met
    ensures { IsMet result (hart_of hart.now) (S.memory store.now) }
{
    let word = word_met(hart, store);
    let instr = instr_of(word);
    let access = access_if(hart, &instr);
    let before = number_in(store, access);
    Met {
        pc: hart.pc,
        word,
        instr,
        access,
        before,
    }
}
