//! Merges logs of one program.
ghost use Rattle.std.specs.Prelude.{◌≤◌, length, IfOk};
ghost use Rattle.bank_merge.specs.Logs.{AreOfOne};

use bank_hart_log::HartLog;
use bank_laws::LoggedAccess;
use bank_memory::{BANKS, Bank};
use bank_merge::{MergeFault, merge};
use bank_order::LogSegment;
use bank_threads::{RunFault, are_of_banks, are_of_harts};
use image::Image;
use machine::{Choice, StartFault};
use std::alloc::Allocator;
use thread_gate::Plan;

/// What logs or their run lack.
#[derive(Clone, Copy, PartialEq, Eq)]
pub enum Lack {
    /// Memory, in another call.
    Memory,
    /// There is no hart for each input.
    Start(StartFault),
    /// A run has left no logs.
    Logs(RunFault),
    /// A segment is refused.
    Segment(bank_hart_log::AddFault),
    /// An access is refused.
    Access(bank_memory::AddFault),
    /// The logs aren't those of the program.
    Program,
    /// They aren't merged.
    Merged(MergeFault),
    /// The merged choices can't be replayed.
    Again,
    /// They end with other harts than the logs.
    Ends,
    /// They end with other bytes or reservations than the banks.
    Words,
}

impl Lack {
    /// Whether it is out of memory.
    pub fn is_of_memory(self) -> bool {
        match self {
            Lack::Logs(fault) => fault == RunFault::Memory,
            Lack::Segment(fault) => fault == bank_hart_log::AddFault::Memory,
            Lack::Access(fault) => fault == bank_memory::AddFault::Memory,
            Lack::Merged(fault) => fault == MergeFault::Memory,
            Lack::Memory => true,
            Lack::Start(_) | Lack::Program | Lack::Again | Lack::Ends | Lack::Words => false,
        }
    }
}

impl From<StartFault> for Lack {
    fn from(fault: StartFault) -> Lack {
        Lack::Start(fault)
    }
}

impl From<RunFault> for Lack {
    fn from(fault: RunFault) -> Lack {
        Lack::Logs(fault)
    }
}

impl From<bank_hart_log::AddFault> for Lack {
    fn from(fault: bank_hart_log::AddFault) -> Lack {
        Lack::Segment(fault)
    }
}

impl From<bank_memory::AddFault> for Lack {
    fn from(fault: bank_memory::AddFault) -> Lack {
        Lack::Access(fault)
    }
}

impl From<MergeFault> for Lack {
    fn from(fault: MergeFault) -> Lack {
        Lack::Merged(fault)
    }
}

/// Merges logs of harts and banks, once they are checked to be those of a run.
pub fn merged_with<A: Allocator + Copy>(
    alloc: A,
    image: &Image<A>,
    inputs: &[u32],
    budget: u32,
    plan: &Plan<A>,
    logs: &[HartLog<A>],
    banks: &[Bank<A>],
) -> Result<Vec<Choice, A>, Lack> {
    if inputs.len() > 32 {
        return Err(Lack::Program);
    }
    if !are_of_harts(logs, image, inputs, plan, budget) || !are_of_banks(banks, image, inputs) {
        return Err(Lack::Program);
    }
    match merge(alloc, logs, banks) {
        Ok(choices) => Ok(choices),
        Err(fault) => Err(Lack::Merged(fault)),
    }
}

// Adds those accesses that are to a bank's words.
fn fill<A: Allocator + Clone>(bank: &mut Bank<A>, accesses: &[LoggedAccess]) -> Result<(), Lack> {
    for access in accesses {
        if access.word / 4 % BANKS == bank.number() {
            bank.add(*access)?;
        }
    }
    Ok(())
}

/// The sixteen banks of a program after these accesses.
pub fn banks_of<'a, A: Allocator + Copy>(
    alloc: A,
    image: &'a Image<A>,
    inputs: &'a [u32],
    accesses: &[LoggedAccess],
) -> Result<Vec<Bank<'a, A>, A>, Lack>
    requires { length inputs.now ≤ 32 }
{
    let mut banks = Vec::new(alloc);
    for number in 0..BANKS {
        let mut bank = Bank::new(alloc, image, inputs, number);
        fill(&mut bank, accesses)?;
        if banks.push(bank).is_err() {
            return Err(Lack::Memory);
        }
    }
    Ok(banks)
}

/// Logs filled by hand.
#[derive(Drop)]
pub struct ByHand<'a, A: Allocator> {
    /// The log of the one hart.
    pub logs: Vec<HartLog<'a, A>, A>,
    /// The banks.
    pub banks: Vec<Bank<'a, A>, A>,
}

/// The logs of one hart that has done two segments, and of its banks after these accesses.
pub fn by_hand<'a, A: Allocator + Copy>(
    alloc: A,
    image: &'a Image<A>,
    inputs: &'a [u32],
    first: LogSegment,
    second: LogSegment,
    accesses: &[LoggedAccess],
) -> Result<ByHand<'a, A>, Lack>
    ensures { IfOk result (λ h. AreOfOne h.logs.items h.banks.items) }
{
    if inputs.len() != 1 {
        return Err(Lack::Program);
    }
    let banks = banks_of(alloc, image, inputs, accesses)?;
    if !are_of_banks(&banks, image, inputs) {
        return Err(Lack::Program);
    }
    let mut log = HartLog::new(alloc, image, inputs, 0);
    log.add(first)?;
    log.add(second)?;
    let mut logs = Vec::new(alloc);
    if logs.push(log).is_err() {
        return Err(Lack::Memory);
    }
    Ok(ByHand { logs, banks })
}
