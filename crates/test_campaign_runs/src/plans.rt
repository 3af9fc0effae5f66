//! Campaigns as rows of tables, and what the engine answers and writes.
ghost use Rattle.std.specs.Prelude.{◌+◌, ◌≤◌, ◌^◌, IfSome};

use byte_io::{Failing, MemorySink, MemorySource, Unheard};
use campaign_runs::{Campaign, Form, Hangs, Properties, Report, Words};
use cmd_campaign::{Finished, Jobs, Limit, OnThreads, Unlimited, campaign_engine};
use object_library::Kind;
use outcome::{Exit, Expect};
use program_open::CommandFault;
use sched_draw::{ChangePoints, Depth, Draw, Mean, Order as HartOrder, Refusals};
use std::alloc::Global;
use std::thread::Threads;

/// How many choices a burst has in the mean.
pub(crate) const MEAN: u32 = 4;

/// How a seed makes its choices.
#[derive(Clone, Copy)]
pub(crate) enum Order {
    /// As where nothing else is asked for.
    Usual,
    /// Evenly, and none refuses.
    Never,
    /// In bursts of `MEAN` choices, and none refuses.
    Bursts,
    /// By priorities with no change point, so that a hart runs to its end before the next one, and
    /// none refuses.
    Priorities,
    /// Mixed, and none refuses.
    Mixed,
}

/// How seeds draw by an order.
pub(crate) fn draw_of(order: Order) -> Option<Draw> {
    match order {
        Order::Usual => Some(Draw::usual()),
        Order::Never => Some(never(HartOrder::Even)),
        Order::Bursts => {
            let mean = Mean::new(MEAN)?;
            Some(never(HartOrder::Bursts(mean)))
        }
        Order::Priorities => {
            let depth = Depth::new(1)?;
            Some(never(HartOrder::Priorities(depth)))
        }
        Order::Mixed => Some(never(HartOrder::Mixed)),
    }
}

// A draw of which no choice refuses.
fn never(order: HartOrder) -> Draw {
    Draw {
        order,
        refusals: Refusals::Never,
        points: ChangePoints::Anywhere,
    }
}

/// A campaign, but for what it reports.
#[derive(Clone, Copy)]
pub(crate) struct Plan {
    pub(crate) first: u64,
    pub(crate) count: u64,
    pub(crate) steps: u32,
    pub(crate) order: Order,
    pub(crate) rule: Option<Kind>,
    pub(crate) exit: Exit,
}

/// The campaign of a plan, where its seeds are below 2^64.
pub(crate) fn campaign_of(plan: Plan, report: Report) -> Option<Campaign>
    ensures { IfSome result (λ campaign. campaign.first + campaign.count ≤ 2 ^ 64) }
{
    let draw = draw_of(plan.order)?;
    if plan.count > 0 && plan.first > u64::MAX - (plan.count - 1) {
        return None;
    }
    Some(Campaign {
        first: plan.first,
        count: plan.count,
        steps: plan.steps as u64,
        draw,
        expect: Expect {
            rule: plan.rule,
            exit: plan.exit,
        },
        properties: Properties::NONE,
        hangs: Hangs::Unasked,
        words: Words::NONE,
        report,
        form: Form::Text,
    })
}

/// Each of the reports.
pub(crate) const REPORTS: [Report; 5] = [
    Report::Lines,
    Report::Failures,
    Report::Summary,
    Report::Outcomes,
    Report::Causes,
];

/// A file, how many reads of it pass, and the inputs of its harts.
#[derive(Clone, Copy)]
pub(crate) struct Program<'f, 'i> {
    pub(crate) file: &'f [u8],
    pub(crate) passed: u64,
    pub(crate) inputs: &'i [u32],
}

/// A program of a file that is read.
pub(crate) fn program_of<'f, 'i>(file: &'f [u8], inputs: &'i [u32]) -> Program<'f, 'i> {
    Program {
        file,
        passed: u64::MAX,
        inputs,
    }
}

/// What a campaign answers, and what it writes.
pub(crate) type Answer = (Result<Finished, CommandFault>, MemorySink<Global>);

/// What the campaign of a plan answers and writes; none where the plan has none.
pub(crate) fn answered(
    rt: &(impl Threads + Sync),
    alloc: Global,
    program: Program,
    plan: Plan,
    report: Report,
) -> Option<Answer> {
    answered_within(rt, alloc, program, plan, report, &mut Unlimited)
}

/// The same, until the limit is over.
pub(crate) fn answered_within(
    rt: &(impl Threads + Sync),
    alloc: Global,
    program: Program,
    plan: Plan,
    report: Report,
    limit: &mut impl Limit,
) -> Option<Answer> {
    let campaign = campaign_of(plan, report)?;
    let mut source = Failing::new(MemorySource::new(program.file), program.passed);
    let mut sink = MemorySink::new(alloc);
    let ending = campaign_engine(
        &OnThreads {
            rt,
            jobs: Jobs::ForProcessors,
        },
        alloc,
        program.inputs,
        campaign,
        limit,
        &mut source,
        &mut sink,
        &mut Unheard,
    );
    Some((ending, sink))
}
