//! The calls that a page makes for the runs of seeds.

ghost use Rattle.std.specs.Prelude.{◌≡◌, drop};
ghost use Rattle.cmd_campaign.specs.Answers.{campaign_answer};
ghost use Rattle.cmd_schedule.specs.Seeds.{choices_answer};
ghost use Rattle.page.specs.Answers.{SaysWhat};
ghost use Rattle.page.specs.Seeds.{AsksCampaign, AsksChoices};
ghost use Rattle.page_calls.specs.Replies.{TellsAnswer};
ghost use Rattle.program_open.specs.CommandFaults.{status_of_fault};

use crate::answer::Answer;
use crate::seeds::{AskedCampaign, AskedChoices, campaign_of, choices_of};
use page_calls::{campaign_call, schedule_call};
use page_heap::{Block, Heap};

/// `schedule` of an ELF file: the choices that a seed draws in a run.
#[unsafe(no_mangle)]
pub extern "C" fn page_schedule(
    region: Block,
    size: usize,
    asked: &AskedChoices,
    inputs: &[u32],
    program: &[u8],
    out: &mut [u8],
    answer: &mut Answer,
)
    requires { region.size ≡ size }
    ensures told { SaysWhat (AsksChoices asked.now)
        (λ plan. TellsAnswer status_of_fault (choices_answer plan inputs.now program.now) out.new)
        answer.new }
    ensures kept { drop answer.new.length out.new ≡ drop answer.new.length out.old }
{
    let heap = Heap::new(region, size);
    *answer = match choices_of(*asked) {
        Some(plan) => Answer::from(schedule_call(&heap, plan, inputs, program, out)),
        None => Answer::unasked(),
    };
}

/// `campaign` of an ELF file: the report of the runs of a range of seeds.
#[unsafe(no_mangle)]
pub extern "C" fn page_campaign(
    region: Block,
    size: usize,
    asked: &AskedCampaign,
    inputs: &[u32],
    program: &[u8],
    out: &mut [u8],
    answer: &mut Answer,
)
    requires { region.size ≡ size }
    ensures told { SaysWhat (AsksCampaign asked.now)
        (λ campaign. TellsAnswer status_of_fault (campaign_answer campaign inputs.now program.now) out.new)
        answer.new }
    ensures kept { drop answer.new.length out.new ≡ drop answer.new.length out.old }
{
    let heap = Heap::new(region, size);
    *answer = match campaign_of(*asked) {
        Some(campaign) => Answer::from(campaign_call(&heap, campaign, inputs, program, out)),
        None => Answer::unasked(),
    };
}
