//! The draws, choices and campaigns that a call asks for, in numbers.

ghost use Rattle.page.specs.Asked.{report_numbered};
ghost use Rattle.page.specs.Seeds.{AsksCampaign, AsksChoices, AsksDraw, AsksOrder, AsksRefusals};
ghost use Rattle.std.specs.Prelude.{◌≡◌};

use crate::asked::{expect_of, report_of};
use cmd_campaign::{Campaign, Form, Hangs, Properties, Words};
use cmd_schedule::SeedPlan;
use sched_draw::{Chance, ChangePoints, Depth, Draw, Mean, Order, Refusals};

/// How a seed draws, in numbers.
#[repr(C)]
#[derive(Clone, Copy)]
pub struct AskedDraw {
    /// How it chooses the harts: 0 evenly, 1 in bursts, 2 by priorities, 3 by these in turn.
    pub order: u32,
    /// The mean length of bursts, or the depth of priorities. Other orders don't read it.
    pub number: u32,
    /// A store-conditional is refused with a chance of one in this; 0 refuses none.
    pub one_in: u32,
}

/// The choices of a seed, in numbers.
#[repr(C)]
#[derive(Clone, Copy)]
pub struct AskedChoices {
    /// Number of choices.
    pub steps: u64,
    /// The seed.
    pub seed: u64,
    /// How it draws.
    pub draw: AskedDraw,
}

/// A campaign, in numbers.
#[repr(C)]
#[derive(Clone, Copy)]
pub struct AskedCampaign {
    /// The first seed.
    pub first: u64,
    /// Number of seeds; they end at 2^64 - 1 or below.
    pub count: u64,
    /// Number of steps of each run.
    pub steps: u64,
    /// How a seed draws.
    pub draw: AskedDraw,
    /// The rule: 0 is none, 1 to 5 are swap, add, lrsc, adopt and rounds.
    pub rule: u32,
    /// With 1 each hart must exit.
    pub exit: u32,
    /// What is reported: 0 a line for each run, 1 those that have failed, 2 a line for each
    /// outcome, 3 the same where runs also differ by the `a0` and `a1` of each hart that has exited,
    /// 4 where they also differ by the cause and the place of each fault.
    pub report: u32,
}

// The order of the harts.
fn order_of(order: u32, number: u32) -> Option<Order>
    ensures { AsksOrder order number result }
{
    match order {
        0 => Some(Order::Even),
        1 => {
            let mean = Mean::new(number)?;
            Some(Order::Bursts(mean))
        }
        2 => {
            let depth = Depth::new(number)?;
            Some(Order::Priorities(depth))
        }
        3 => Some(Order::Mixed),
        _ => None,
    }
}

// Which store-conditionals are refused.
fn refusals_of(one_in: u32) -> Option<Refusals>
    ensures { AsksRefusals one_in result }
{
    if one_in == 0 {
        return Some(Refusals::Never);
    }
    let chance = Chance::new(one_in)?;
    Some(Refusals::OneIn(chance))
}

// How a seed draws.
fn draw_of(asked: AskedDraw) -> Option<Draw>
    ensures { AsksDraw asked result }
{
    let order = order_of(asked.order, asked.number)?;
    let refusals = refusals_of(asked.one_in)?;
    Some(Draw {
        order,
        refusals,
        points: ChangePoints::Anywhere,
    })
}

/// The choices that are asked for.
pub(crate) fn choices_of(asked: AskedChoices) -> Option<SeedPlan>
    ensures { AsksChoices asked result }
{
    let draw = draw_of(asked.draw)?;
    Some(SeedPlan {
        draw,
        steps: asked.steps,
        seed: asked.seed,
    })
}

/// The campaign that is asked for.
pub(crate) fn campaign_of(asked: AskedCampaign) -> Option<Campaign>
    ensures { AsksCampaign asked result }
{
    let draw = draw_of(asked.draw)?;
    let expect = expect_of(asked.rule, asked.exit)?;
    let report = report_of(asked.report)?;
    if asked.count > 0 && asked.first > u64::MAX - (asked.count - 1) {
        return None;
    }
    Some(Campaign {
        first: asked.first,
        count: asked.count,
        steps: asked.steps,
        draw,
        expect,
        properties: Properties::NONE,
        hangs: Hangs::Unasked,
        words: Words::NONE,
        report,
        form: Form::Text,
    })
}
