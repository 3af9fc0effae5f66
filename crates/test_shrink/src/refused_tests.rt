//! Each request of a shrinking refused in turn, once and for good.
use crate::worked::{TWO_FAULTS, file_of};
use byte_io::{MemorySink, MemorySource, Status};
use cmd_shrink::{Unheard, shrink_engine};
use outcome::{Exit, Expect};
use program_open::{CommandFault, deliver};
use property_judge::Property;
use std::alloc::{AllocError, Allocator, Global};
use test_refusing::{Call, Wrong, tried};

// A shrinking of this file's run, by choices left out and runs exchanged.
#[derive(Clone, Copy)]
struct Shrinking<'a> {
    file: &'a [u8],
    properties: &'a [Property],
    left: &'a str,
}

// No two harts are behind the address of a word and before the end of a section.
const ALONE: [Property; 1] = [Property::NeverBoth {
    from: 0x1_0008,
    to: 0x1_0100,
}];

// Whether a shrinking gave this answer in full; or it told want of memory and wrote nothing.
fn answer_of(
    ending: Result<Status, CommandFault>,
    bytes: &[u8],
    left: &str,
) -> Result<bool, AllocError> {
    match ending {
        Ok(status) => Ok(status == Status::Done && bytes == left.as_bytes()),
        Err(CommandFault::Memory) if bytes.is_empty() => Err(AllocError),
        Err(_) => Ok(false),
    }
}

impl<'a> Call for Shrinking<'a> {
    fn answer<A: Allocator + Copy>(&self, alloc: A, host: Global) -> Result<bool, AllocError> {
        let mut program = MemorySource::new(self.file);
        let mut choices = MemorySource::new(b"1*2 0*2 1*3 0*6");
        let mut sink = MemorySink::new(host);
        let answer = shrink_engine(
            alloc,
            &[0, 0],
            Expect {
                rule: None,
                exit: Exit::May,
            },
            self.properties,
            &mut program,
            &mut choices,
            &mut Unheard,
        );
        let ending = deliver(&mut sink, answer);
        answer_of(ending, sink.bytes(), self.left)
    }
}

// What is wrong with the shrinking of the file's run, in which these properties are judged; nothing
// for want of memory for the file.
fn tried_shrinking(
    alloc: Global,
    properties: &[Property],
    left: &str,
) -> Option<Result<(), Wrong>> {
    let file = file_of(alloc, TWO_FAULTS)?;
    let shrinking = Shrinking {
        file: &file,
        properties,
        left,
    };
    Some(tried(alloc, &shrinking))
}

#[test]
fn shrinking_tells_want_of_memory(rt: HostRuntime) {
    assert!(rt; tried_shrinking(rt.alloc(), &[], "1*4 0*6\n") == Some(Ok(())));
}

#[test]
fn shrinking_by_a_property_tells_want_of_memory(rt: HostRuntime) {
    assert!(rt; tried_shrinking(rt.alloc(), &ALONE, "1*2 0*2\n") == Some(Ok(())));
}
