//! Calls that make the objects' images and tables.
use image::Image;
use object_adopt::{adopt_image, rounds_image};
use object_consensus::{add_image, lrsc_image, swap_image};
use object_library::{Kind, certify, make_image, table, words};
use std::alloc::{AllocError, Allocator, Global};
use test_refusing::{Call, tried};

// A call.
#[derive(Clone, Copy)]
enum ObjectCall {
    Table(Kind),
    MakeImage(Kind),
    SwapImage,
    AddImage,
    LrScImage,
    AdoptImage,
    RoundsImage,
}

// All of them, each with one kind.
const CALLS: [(&str, ObjectCall); 7] = [
    ("table", ObjectCall::Table(Kind::LrSc)),
    ("make_image", ObjectCall::MakeImage(Kind::LrSc)),
    ("swap_image", ObjectCall::SwapImage),
    ("add_image", ObjectCall::AddImage),
    ("lrsc_image", ObjectCall::LrScImage),
    ("adopt_image", ObjectCall::AdoptImage),
    ("rounds_image", ObjectCall::RoundsImage),
];

// Whether the table of a kind has its words.
fn is_table<A: Allocator + Copy>(alloc: A, kind: Kind) -> Result<bool, AllocError> {
    let instructions = table(alloc, kind)?;
    Ok(instructions.len() == words(kind).len())
}

// Whether an image that was made is that of an object of the kind.
fn is_certified<A: Allocator + Copy>(
    made: Result<Image<A>, AllocError>,
    kind: Kind,
) -> Result<bool, AllocError> {
    let image = made?;
    Ok(certify(kind, &image))
}

impl Call for ObjectCall {
    fn answer<A: Allocator + Copy>(&self, alloc: A, _host: Global) -> Result<bool, AllocError> {
        match *self {
            ObjectCall::Table(kind) => is_table(alloc, kind),
            ObjectCall::MakeImage(kind) => is_certified(make_image(alloc, kind), kind),
            ObjectCall::SwapImage => is_certified(swap_image(alloc), Kind::Swap),
            ObjectCall::AddImage => is_certified(add_image(alloc), Kind::Add),
            ObjectCall::LrScImage => is_certified(lrsc_image(alloc), Kind::LrSc),
            ObjectCall::AdoptImage => is_certified(adopt_image(alloc), Kind::AdoptCommit),
            ObjectCall::RoundsImage => is_certified(rounds_image(alloc), Kind::Rounds),
        }
    }
}

#[test]
fn calls_on_objects_tell_want_of_memory(rt: HostRuntime) {
    for (name, call) in &CALLS {
        assert!(rt; tried(rt.alloc(), call) == Ok(()), "{name}");
    }
}
