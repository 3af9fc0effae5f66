//! `campaign`: the runs of a range of seeds, on the processor of the caller alone.

ghost use Rattle.std.specs.Prelude.{◌+◌, ◌≤◌, ◌^◌};
ghost use Rattle.cmd_campaign.specs.Answers.{campaign_answer};
ghost use Rattle.page_calls.specs.Replies.{KeepsRest, TellsAnswer};
ghost use Rattle.program_open.specs.CommandFaults.{status_of_fault};

use crate::reply::{Reply, answered};
use crate::running::refused_by;
use byte_io::{MemorySink, MemorySource, Unheard};
use cmd_campaign::{Alone, Campaign, Unlimited, campaign_engine};
use std::alloc::Allocator;

/// `campaign`: the report of the runs of an ELF file under the schedules of a range of seeds, which
/// has to end at 2^64 - 1 or below.
pub fn campaign_call<A: Allocator + Copy>(
    alloc: A,
    campaign: Campaign,
    inputs: &[u32],
    program: &[u8],
    out: &mut [u8],
) -> Reply
    requires fits { campaign.first + campaign.count ≤ 2 ^ 64 }
    ensures told { TellsAnswer status_of_fault
        (campaign_answer campaign inputs.now program.now) out.new result }
    ensures kept { KeepsRest out.old out.new result }
{
    let mut program = MemorySource::new(program);
    let mut sink = MemorySink::new(alloc);
    match campaign_engine(
        &Alone,
        alloc,
        inputs,
        campaign,
        &mut Unlimited,
        &mut program,
        &mut sink,
        &mut Unheard,
    ) {
        Ok(finished) => answered(sink.bytes(), finished.status, out),
        Err(fault) => refused_by(alloc, fault, out),
    }
}
