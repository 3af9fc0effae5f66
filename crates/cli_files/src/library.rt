//! Runs `lib`.

use byte_io::Status;
use cli_orders::LibOrder;
use cli_report::{print_text, read_object, refuse, say};
use object_library::source;

/// Prints the source of an object.
pub fn obey_lib<R: AllocGlobal + Print + Eprint>(rt: &R, order: &LibOrder) -> Status {
    let kind = match read_object(order.object) {
        Ok(kind) => kind,
        Err(fault) => return refuse(rt, &fault),
    };
    match print_text(rt, source(kind).as_bytes()) {
        Ok(()) => Status::Done,
        Err(fault) => say(rt, fault),
    }
}
