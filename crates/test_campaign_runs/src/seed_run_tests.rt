//! What no clause says of the first machine of a campaign and of one seed's run: that they are had
//! where memory is left, with each request refused in turn.
use crate::plans::{Order, draw_of};
use campaign_runs::{Campaign, Ending, Form, Hangs, Properties, Report, Words, run_seed};
use machine::{Inputs, Machine};
use mem_flat::FlatStore;
use object_library::{Kind, Verdict};
use outcome::{Exit, Expect};
use property_judge::{Comparison, Property};
use sched_draw::Draw;
use std::alloc::{AllocError, Allocator, Global};
use test_images::{CONDITIONAL, writable_program};
use test_refusing::{Call, tried};

// A judged run of more steps than both harts take, so that both results are told.
fn campaign_with(draw: Draw, properties: Properties, hangs: Hangs) -> Campaign {
    Campaign {
        first: 5,
        count: 1,
        steps: 1_000,
        draw,
        expect: Expect {
            rule: Some(Kind::LrSc),
            exit: Exit::Must,
        },
        properties,
        hangs,
        words: Words::NONE,
        report: Report::Outcomes,
        form: Form::Text,
    }
}

// The word at 0x11000 is 0 until the first store. At the start both harts are at 0x10000; none is
// ever at 0x20000.
const WORD: Property = Property::Always {
    word: 0x0001_1000,
    comparison: Comparison::Equal,
    number: 0,
};

const NO_WORD: Property = Property::Always {
    word: 0x0002_0000,
    comparison: Comparison::Equal,
    number: 0,
};

const START: Property = Property::NeverBoth {
    from: 0x0001_0000,
    to: 0x0001_0004,
};

const NOWHERE: Property = Property::NeverBoth {
    from: 0x0002_0000,
    to: 0x0002_0004,
};

// The run of one seed under schedules of an order, what its line says of two properties, and
// the verdict on them.
struct OneSeed {
    order: Order,
    first: Option<Property>,
    second: Option<Property>,
    hangs: Hangs,
    says: &'static str,
    ends: &'static str,
    verdict: Option<Verdict>,
}

impl OneSeed {
    // Whether a run ended so: behind the properties come the results of both harts, and then whether
    // it hangs.
    fn is_end(&self, ending: &Ending<impl Allocator>) -> bool {
        ending.properties == self.verdict
            && ending.words.as_str().starts_with(self.says)
            && ending.words.as_str().ends_with(self.ends)
            && ending.words.len().saturating_sub(self.ends.len()) == self.says.len() + 56
    }
}

impl Call for OneSeed {
    fn answer<A: Allocator + Copy>(&self, alloc: A, host: Global) -> Result<bool, AllocError> {
        let Some(draw) = draw_of(self.order) else {
            return Ok(false);
        };
        let properties = Properties {
            first: self.first,
            second: self.second,
        };
        let image = writable_program(host, &CONDITIONAL)?;
        let Ok(inputs) = Inputs::new(&[7, 9]) else {
            return Ok(false);
        };
        let start: Machine<FlatStore<A>, A> = Machine::start(alloc, &image, &inputs)?;
        let campaign = campaign_with(draw, properties, self.hangs);
        let end = run_seed(alloc, &start, &inputs, campaign, 5)?;
        Ok(end.seed == 5 && self.is_end(&end.ending))
    }
}

#[rattlefmt::skip]
const SEEDS: [OneSeed; 13] = [
    OneSeed { order: Order::Usual, first: None, second: None, hangs: Hangs::Unasked, says: "", ends: "", verdict: None },
    OneSeed { order: Order::Never, first: None, second: None, hangs: Hangs::Unasked, says: "", ends: "", verdict: None },
    OneSeed { order: Order::Bursts, first: None, second: None, hangs: Hangs::Unasked, says: "", ends: "", verdict: None },
    OneSeed { order: Order::Priorities, first: None, second: None, hangs: Hangs::Unasked, says: "", ends: "", verdict: None },
    OneSeed { order: Order::Mixed, first: None, second: None, hangs: Hangs::Unasked, says: "", ends: "", verdict: None },
    OneSeed { order: Order::Usual, first: Some(NOWHERE), second: Some(NO_WORD),
        hangs: Hangs::Unasked, says: " never-both kept always kept", ends: "", verdict: Some(Verdict::Kept) },
    OneSeed { order: Order::Usual, first: Some(NOWHERE), second: Some(WORD),
        hangs: Hangs::Unasked, says: " never-both kept always broken", ends: "", verdict: Some(Verdict::Broken) },
    OneSeed { order: Order::Bursts, first: Some(START), second: Some(NO_WORD),
        hangs: Hangs::Unasked, says: " never-both broken always kept", ends: "", verdict: Some(Verdict::Broken) },
    OneSeed { order: Order::Priorities, first: Some(WORD), second: None,
        hangs: Hangs::Unasked, says: " always broken", ends: "", verdict: Some(Verdict::Broken) },
    OneSeed { order: Order::Mixed, first: None, second: Some(WORD),
        hangs: Hangs::Unasked, says: " always broken", ends: "", verdict: Some(Verdict::Broken) },
    OneSeed { order: Order::Never, first: None, second: Some(NOWHERE),
        hangs: Hangs::Unasked, says: " never-both kept", ends: "", verdict: Some(Verdict::Kept) },
    OneSeed { order: Order::Usual, first: None, second: None,
        hangs: Hangs::Asked, says: "", ends: " hangs no", verdict: None },
    OneSeed { order: Order::Bursts, first: None, second: Some(NOWHERE),
        hangs: Hangs::Asked, says: " never-both kept", ends: " hangs no", verdict: Some(Verdict::Kept) },
];

#[test]
fn each_refused_request_is_told(rt: HostRuntime) {
    for seed in &SEEDS {
        assert!(rt; tried(rt.alloc(), seed).is_ok());
    }
}
