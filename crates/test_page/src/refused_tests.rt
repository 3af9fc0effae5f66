//! Each request of a call refused in turn, once and for good.
use crate::worked::{Asked, CHOICES, ROWS, Wanted, made};
use page_calls::Reply;
use std::alloc::{AllocError, Allocator, Global};
use test_refusing::{Call, tried};

// A call with its answer.
#[derive(Clone, Copy)]
struct Row {
    asked: Asked,
    wanted: Wanted,
}

impl Call for Row {
    fn answer<A: Allocator + Copy>(&self, alloc: A, host: Global) -> Result<bool, AllocError> {
        let mut out = Vec::from_elem(host, 0u8, 256)?;
        match made(alloc, self.asked, &mut out) {
            Reply::NoMemory if out.iter().all(|byte| *byte == 0) => Err(AllocError),
            reply => {
                let text = self.wanted.text();
                Ok(reply == self.wanted.reply() && out.starts_with(text))
            }
        }
    }
}

// The number of the first row that doesn't tell that memory was refused.
fn first_untold(alloc: Global, rows: &[(Asked, Wanted)]) -> Option<usize> {
    for (number, (asked, wanted)) in rows.iter().enumerate() {
        let row = Row {
            asked: *asked,
            wanted: *wanted,
        };
        if tried(alloc, &row).is_err() {
            return Some(number);
        }
    }
    None
}

#[test]
fn calls_tell_want_of_memory(rt: HostRuntime) {
    assert_eq!(rt; first_untold(rt.alloc(), &ROWS), None);
}

#[test]
fn calls_on_choices_tell_want_of_memory(rt: HostRuntime) {
    assert_eq!(rt; first_untold(rt.alloc(), &CHOICES), None);
}
