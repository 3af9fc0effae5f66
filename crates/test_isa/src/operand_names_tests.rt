//! The names of all registers and of some fence sets, as GNU as reads them.
use isa_names::{FenceAccesses, RegisterName};
use isa_table::{FenceSet, Reg};
use std::alloc::{AllocError, Allocator};

// The item to print.
#[derive(Clone, Copy)]
enum Named {
    Register(Reg),
    // A set by its bits, below 16.
    Set(u8),
}

// The text printed.
fn printed<A: Allocator + Copy>(alloc: A, named: Named) -> Result<String<A>, AllocError> {
    match named {
        Named::Register(register) => {
            let name = RegisterName(register);
            format!(in alloc; "{name}")
        }
        Named::Set(bits) => {
            let name = FenceAccesses(FenceSet::new(bits & 15));
            format!(in alloc; "{name}")
        }
    }
}

// Whether a name is printed as this text.
fn is_printed<A: Allocator + Copy>(alloc: A, named: Named, wanted: &str) -> bool {
    match printed(alloc, named) {
        Ok(text) => text.as_str() == wanted,
        Err(AllocError) => false,
    }
}

const REGISTERS: [&str; 32] = [
    "zero", "ra", "sp", "gp", "tp", "t0", "t1", "t2", "s0", "s1", "a0", "a1", "a2", "a3", "a4",
    "a5", "a6", "a7", "s2", "s3", "s4", "s5", "s6", "s7", "s8", "s9", "s10", "s11", "t3", "t4",
    "t5", "t6",
];

#[test]
fn registers_have_their_names(rt: HostRuntime) {
    for number in 0..32u8 {
        let register = Named::Register(Reg::new(number));
        assert!(rt;
            is_printed(rt.alloc(), register, REGISTERS[number as usize]),
            "{number}"
        );
    }
}

// Names and their printed texts.
const NAMES: [(Named, &str); 9] = [
    (Named::Register(Reg::ZERO), "zero"),
    (Named::Register(Reg::RA), "ra"),
    (Named::Register(Reg::TEMPORARY_1), "t1"),
    (Named::Set(15), "iorw"),
    (Named::Set(12), "io"),
    (Named::Set(3), "rw"),
    (Named::Set(8), "i"),
    (Named::Set(1), "w"),
    (Named::Set(0), ""),
];

#[test]
fn constants_and_sets_have_their_names(rt: HostRuntime) {
    for (named, wanted) in &NAMES {
        assert!(rt; is_printed(rt.alloc(), *named, wanted), "{wanted}");
    }
}
