//! What no clause says of a walk: that its calls succeed where memory is left, with each request
//! refused in turn.
use campaign_bounded::Schedules;
use machine::{Inputs, Machine};
use mem_flat::FlatStore;
use object_library::Kind;
use outcome::{Exit, Expect};
use std::alloc::{AllocError, Allocator, Global};
use test_images::{CONDITIONAL, writable_program};
use test_refusing::{Call, tried};

// The first three schedules of a program of two harts, with a fair tail of four steps.
struct Three;

impl Call for Three {
    fn answer<A: Allocator + Copy>(&self, alloc: A, host: Global) -> Result<bool, AllocError> {
        let image = writable_program(host, &CONDITIONAL)?;
        let Ok(inputs) = Inputs::new(&[7, 9]) else {
            return Ok(false);
        };
        let start: Machine<FlatStore<A>, A> = Machine::start(alloc, &image, &inputs)?;
        let expect = Expect {
            rule: Some(Kind::LrSc),
            exit: Exit::May,
        };
        let mut walk = Schedules::new(alloc, start, 2, 5, 1)?;
        for _ in 0..3 {
            let Some(mut schedule) = walk.next(alloc)? else {
                return Ok(false);
            };
            schedule.end_fairly(2, 4)?;
            if schedule.choices.len() != 9 || schedule.judge(&inputs, expect).verdict.is_none() {
                return Ok(false);
            }
        }
        Ok(true)
    }
}

#[test]
fn each_refused_request_is_told(rt: HostRuntime) {
    assert!(rt; tried(rt.alloc(), &Three).is_ok());
}
